// Words and decimal numbers in a line of an axis log (document 01, "The program axislog"). Positions in a line are counted from 0.
#![tactic(auto)]

pub mod number;
pub mod word;
