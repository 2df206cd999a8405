// No code: each line of a log is answered as the table says, and every position that axislog prints is less than one unit away from the exact one.
#![tactic(auto)]
