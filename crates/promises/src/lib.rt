// No code: what the whole library promises, as statements about the meanings of its public functions.
#![tactic(auto)]
