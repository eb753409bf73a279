//! The operands of a line, each with what precedes it, however they are spelled.
ghost use Rattle.std.specs.Prelude.{◌≡◌, option_map};
ghost use Rattle.iloc_ops.specs.Forms.Lead.{space, comma, arrow};
ghost use Rattle.iloc_ops.specs.Forms.{◌▹◌};
ghost use Rattle.iloc_ops.specs.Forms.Value.{Use, Constant};
ghost use Rattle.iloc_text.specs.Steps.Scan.{register_at, operand_at};

use crate::line::numbers::number_at;
use crate::line::scan::{arrow_at, comma_at, some_blanks_at};

/// The number of a register.
fn register_at(bytes: &[u8]) -> Option<(u32, &[u8])>
    ensures { option_map (λ found. (found.0, found.1.now)) result ≡ register_at bytes.now }
{
    match bytes {
        [b'r', digits @ ..] => number_at(digits),
        _ => None,
    }
}

/// One blank or more and a register.
pub fn register_behind_blank(bytes: &[u8]) -> Option<(u32, &[u8])>
    ensures { option_map (λ found. (found.0, found.1.now)) result ≡ operand_at (space ▹ Use (record { 0 = 0 })) bytes.now }
{
    register_at(some_blanks_at(bytes)?)
}

/// A comma and a register.
pub fn register_behind_comma(bytes: &[u8]) -> Option<(u32, &[u8])>
    ensures { option_map (λ found. (found.0, found.1.now)) result ≡ operand_at (comma ▹ Use (record { 0 = 0 })) bytes.now }
{
    register_at(comma_at(bytes)?)
}

/// An arrow and a register.
pub fn register_behind_arrow(bytes: &[u8]) -> Option<(u32, &[u8])>
    ensures { option_map (λ found. (found.0, found.1.now)) result ≡ operand_at (arrow ▹ Use (record { 0 = 0 })) bytes.now }
{
    register_at(arrow_at(bytes)?)
}

/// One blank or more and a number.
pub fn number_behind_blank(bytes: &[u8]) -> Option<(u32, &[u8])>
    ensures { option_map (λ found. (found.0, found.1.now)) result ≡ operand_at (space ▹ Constant 0) bytes.now }
{
    number_at(some_blanks_at(bytes)?)
}

/// A comma and a number.
pub fn number_behind_comma(bytes: &[u8]) -> Option<(u32, &[u8])>
    ensures { option_map (λ found. (found.0, found.1.now)) result ≡ operand_at (comma ▹ Constant 0) bytes.now }
{
    number_at(comma_at(bytes)?)
}
