// No code: the starred bench values of document 01, as one list with one claim.
#![tactic(auto)]
