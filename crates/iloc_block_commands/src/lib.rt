//! The commands that list what comes of blocks, their schedules, or what is wrong with a text.
#![tactic(auto)]

mod compare;
mod counts;
mod lint;
mod optimize;
mod run;
mod schedule;
mod simulate;

pub use compare::{CompareLister, ComparedCycles};
pub use counts::CountLister;
pub use lint::linted;
pub use optimize::OptimizeLister;
pub use run::RunLister;
pub use schedule::ScheduleLister;
pub use simulate::SimulateLister;
