//! The kinds of operations, each found once: what is asked of an operation later is answered by its kind.
ghost use Rattle.std.specs.Prelude.{◌≡◌, map, OnOk};
ghost use Rattle.iloc_timed.specs.Kinds.{kind};

use iloc_ops::{NoMemory, Op};
use iloc_timed::Kind;

/// Fills a list with the kind of each operation.
#[inline(always)]
pub(crate) fn fill_kinds(kinds: &mut Vec<Kind>, ops: &[Op]) -> Result<(), NoMemory>
    ensures { OnOk result (kinds.new.items ≡ map kind ops.now) }
{
    kinds.clear();
    kinds.reserve(ops.len())?;
    for op in ops {
        kinds.push(Kind::of(op))?;
    }
    Ok(())
}
