//! The shortest schedule that is found for a block, and a bound that none is below, by branch and bound over time windows.
//!
//! A search narrows for each operation the window of cycles in which it can be issued, and splits a window where nothing more
//! follows. Where no window is left, no lawful schedule is as short as was tried.
#![tactic(auto)]

mod choice;
mod crowds;
pub mod laws;
mod narrowing;
mod nests;
mod optimizer;
mod proposal;
mod search;
mod waits;
mod windows;

pub use optimizer::{MOST_SEARCHED, Optimizer, Optimum, Orders};
pub use search::{Found, search_windows};
pub use windows::Windows;
