// No code: the rules by which the box's kernel runs the rows of a table, on paper, and which runs they allow.
#![tactic(auto)]
