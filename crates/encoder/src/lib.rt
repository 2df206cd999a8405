// Nameplate and parameters of an absolute rotary encoder, encoder profile classes 2 and 4, and what they put in force.
#![tactic(auto)]

pub mod effect;
pub mod nameplate;
mod operating;
pub mod parameters;
pub mod quantity;
pub mod refusal;
