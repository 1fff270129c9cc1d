// Laws of the model's definitions (see proofs/). There are no functions.
#![tactic(auto)]
