// No code: every position that encoder_batch yields is less than one unit away from the exact one.
#![tactic(auto)]
