//! Schedules for a machine with two units, and what the machine does with them: latencies, rows, cycles, the timed run.
#![tactic(auto)]

mod build_fault;
mod kind;
mod latencies;
mod machine;
mod row;
mod run;
mod schedule;
mod simulator;
mod spelling;
mod timing;
mod wheel;

pub use build_fault::BuildFault;
pub use kind::Kind;
pub use latencies::{LONGEST_LATENCY, Latencies};
pub use machine::Machine;
pub use row::{Row, kind_in};
pub use run::run_schedule;
pub use schedule::{MAX_ROWS, Schedule};
pub use simulator::Simulator;
pub use spelling::{RowWriter, push_row};
pub use timing::{cycles, cycles_of, latency};
pub use wheel::{LONGEST, Lands, Wheel};
