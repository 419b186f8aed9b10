// The engine: a checked book is begun, its run is advanced and settled.
#![tactic(auto)]

mod base;
mod calls;
mod done;
mod go;
mod have;
mod make;
mod moves;
mod perform;
pub mod question;
mod readings;
mod records;
pub mod refused;
mod slip;
mod step;
mod work;

pub use base::{Run, SettledRun, Steps};
pub use calls::{advance, begin};
