// No code: the rules of a cycle before request 3, and that nothing else has changed where there is no sign of life.
#![tactic(auto)]
