//! Facts of rows that somebody made for a block: what their operations read, which have a counterpart, and what is said of them.
#![tactic(auto)]

mod by_label;
mod counterparts;
mod fact;
mod label;
mod lawfulness;
mod reading;
mod sides;

pub use by_label::ByLabel;
pub use counterparts::lacking::{Lacking, has_operations, without_counterpart};
pub use fact::{Fact, MOST_FACTS, Reasons};
pub use label::{have_one_label, opcode_and_constant};
pub use lawfulness::{Added, Issue, LeftOut};
pub use reading::Reading;
pub use reading::given::without_nops;
pub use reading::sources::Sources;
pub use sides::Sides;
