// No code: the accuracy theorem (document 01, "The distance rule") over every list of calls, and the theorem that calls keep the limits.
#![tactic(auto)]
