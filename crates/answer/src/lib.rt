// From a day's input to its slip: the whole work of the program `slip`.
#![tactic(auto)]

mod stopped;
mod work;

pub use stopped::Stopped;
pub use work::slip_of;
