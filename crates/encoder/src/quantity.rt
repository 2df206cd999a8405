// Physical steps, measuring units and turns are counted apart: no sum takes two of them.

// Steps of the sensor.
#[derive(Clone, Copy, PartialEq, Eq)]
pub struct Steps(pub u64);

// Measuring units, as the control sees them.
#[derive(Clone, Copy, PartialEq, Eq)]
pub struct Units(pub u32);

// Turns of the shaft.
#[derive(Clone, Copy, PartialEq, Eq)]
pub struct Turns(pub u32);
