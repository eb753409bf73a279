//! A board that hands numbered jobs to workers and takes their answers back. It knows nothing of what a job is.
#![tactic(auto)]

mod answers;
mod board;
mod collect;
mod core_steps;
mod desk;
mod done;
mod fault;
mod gate;
mod jobs;
mod step;
mod worker;

pub use board::pass::{Pass, Root};
pub use board::state::State;
pub use board::{Board, Seen, Tried};
pub use collect::{CollectFault, Collected};
pub use core_steps::{Played, play};
pub use desk::{AtDesk, NoDesk};
pub use done::{Done, Receipt};
pub use fault::{NoMemory, NoMemoryWith};
pub use gate::{FreeGate, Gate};
pub use jobs::Jobs;
pub use step::{Reply, Step};
pub use worker::{work, work_at};
