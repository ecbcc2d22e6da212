// No code: the few words that the definitions of every layer share (specs/), and their laws (proofs/).
#![tactic(auto)]
