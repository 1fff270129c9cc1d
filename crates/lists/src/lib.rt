// Definitions and laws over lists and indices (see specs/). There are no functions.
#![tactic(auto)]
