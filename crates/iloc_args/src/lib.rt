//! The command line of `ilocfarm`: what its words ask for.
#![tactic(auto)]

mod advice;
mod command;
mod fault;
mod flag;
mod line;
mod priority;
mod request;

pub use fault::{Exclusion, LineFault, line_status};
pub use flag::{Flag, Flags};
pub use line::parse_line;
pub use priority::priority_name;
pub use request::{Request, Task};
