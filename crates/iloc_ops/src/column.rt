//! The columns in which listings have numbers.
ghost use Rattle.std.specs.Prelude.{◌≡◌, ◌++◌, OnOk};
ghost use Rattle.iloc_ops.specs.Columns.{column};

use crate::no_memory::NoMemory;
use crate::spelling::push_number;

/// Promise: appends a space, `name`, a space and `number` in decimal.
///
/// After a refusal of memory a part of it may have been appended.
pub fn push_column(text: &mut Vec<u8>, name: &str, number: u64) -> Result<(), NoMemory>
    ensures { OnOk result (text.new.items ≡ text.old.items ++ column name.now number) }
{
    text.extend_from_slice(b" ")?;
    text.extend_from_slice(name.as_bytes())?;
    text.extend_from_slice(b" ")?;
    push_number(text, number)
}
