// Demands 2 and 3 of the calls themselves, from their promises alone (see specs/ and proofs/). There are no functions.
#![tactic(auto)]
