// The specification as definitions, the demands as types, the worked logs and the samples (see specs/). There are no functions.
#![tactic(auto)]
