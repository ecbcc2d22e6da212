// No code: the recurrence, the two bounds, the verdict and the rounds of a row, on paper, and what they come to.
#![tactic(auto)]
