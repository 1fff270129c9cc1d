// More samples of the model, computed (see specs/). There are no functions.
#![tactic(auto)]
