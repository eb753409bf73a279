//! Verdicts on rows that somebody made for a block, and what is listed of them.
#![tactic(auto)]

mod checked;
mod json;
pub mod laws;
mod obstacle;
mod remark;
mod verdict;

pub use checked::changes::{Changes, changes_of};
pub use checked::kept::keeps_operations;
pub use checked::reason::push_reasons;
pub use checked::{Checked, Judged, found, kind_of, push_entry};
pub use obstacle::{Obstacle, push_obstacle};
pub use verdict::kind::VerdictKind;
pub use verdict::{Judgement, Verdict};
