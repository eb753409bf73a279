//! Whether rows keep the operations of their block.
ghost use Rattle.std.specs.Prelude.{◌≡◌, IfOk};
ghost use Rattle.iloc_verdict.specs.Kept.{has_asked, keeps_operations};

use iloc_facts::{has_operations, without_nops};
use iloc_ops::{Block, NoMemory, Op};
use iloc_rows::Proposal;
use std::alloc::Global;

/// Whether `ops` are the operations of `block`, `nop`s left out and whatever registers they name, where that is asked for.
fn has_asked(alloc: Global, asked: bool, block: &Block, ops: &[Op]) -> Result<bool, NoMemory>
    ensures { IfOk result (λ yes. yes ≡ has_asked asked block.now.ops ops.now) }
{
    if asked {
        let wanted = without_nops(alloc, block)?;
        has_operations(alloc, &wanted, ops)
    } else {
        Ok(true)
    }
}

/// Whether the rows of `proposal` can be read and, where that is asked for, their operations are those of `block`, `nop`s left out
/// and whatever registers they name.
pub fn keeps_operations(
    alloc: Global,
    asked: bool,
    block: &Block,
    proposal: &Proposal,
) -> Result<bool, NoMemory>
    ensures { IfOk result (λ yes. yes ≡ keeps_operations asked block.now.ops proposal.now) }
{
    if proposal.unread().is_some() {
        return Ok(false);
    }
    has_asked(alloc, asked, block, proposal.ops())
}
