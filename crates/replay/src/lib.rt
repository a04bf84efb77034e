// Replays recorded answers through the C interface: a case's call is made with the case's arguments, and the result, the position, the accepted
// values and the whole output are compared with what the case expects. Every lent buffer is full of 0xEE before a call, so that a byte or a number
// that a refusal should leave alone is seen to stay.
#![tactic(auto)]

mod cases;
mod steps;

pub use steps::{Entry, LAST_NUMBER, Step, take_step};
