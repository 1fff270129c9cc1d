// The proofs of demands 2 and 3 about the model's definitions (see proofs/). There are no functions.
#![tactic(auto)]
