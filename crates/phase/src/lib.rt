// No code: the phase of an axis, units and rest as one number, and what a ledger beside it counts from.
#![tactic(auto)]
