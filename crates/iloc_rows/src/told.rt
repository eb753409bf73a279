//! What a line below the blocks tells.
ghost use Rattle.std.specs.Prelude.{◌≡◌, ◌<◌, ℕ, option_map};
ghost use Rattle.std.specs.Option.{option_copied};
ghost use Rattle.iloc_text.specs.ScheduleLines.{said_of};
ghost use Rattle.iloc_rows.specs.Names.{is_named, is_named_otherwise, is_same_name, misnamed};
ghost use Rattle.iloc_rows.specs.Told.{Tells, told_of};

use iloc_ops::{Block, Name};
use iloc_text::{ScheduleLine, read_schedule_line};

/// What a line below the blocks tells.
#[derive(Clone, Copy)]
pub enum ToldLine<'a> {
    /// It reads as a schedule line, or as an empty one.
    Reads(ScheduleLine<'a>),
    /// It can't be read.
    Unread(&'a [u8]),
    /// It is the head of the block with this number, by another name.
    Misnamed(u32, &'a [u8]),
}

/// Whether both are the same name, or both none.
fn is_same_name(own: Option<&Name>, name: Option<&[u8]>) -> bool
    ensures { result ≡ is_same_name (option_copied own.entry) (option_map (λ text. text.now) name.entry) }
{
    match (own, name) {
        (None, None) => true,
        (Some(own), Some(name)) => own.as_str().as_bytes() == name,
        _ => false,
    }
}

/// Whether there is a block with this number, counted from 1, and it has this name.
pub(crate) fn is_named(blocks: &[Block], number: u32, name: Option<&[u8]>) -> bool
    requires { 0 < number }
    ensures { result ≡ is_named blocks.now number (option_map (λ text. text.now) name.entry) }
{
    match blocks.get(number as usize - 1) {
        Some(block) => is_same_name(block.name.as_ref(), name),
        None => false,
    }
}

/// Whether there is a block with this number, counted from 1, and it has another name.
fn is_named_otherwise(blocks: &[Block], number: u32, name: Option<&[u8]>) -> bool
    ensures { result ≡ is_named_otherwise blocks.now number (option_map (λ text. text.now) name.entry) }
{
    if number == 0 {
        return false;
    }
    match blocks.get(number as usize - 1) {
        Some(block) => !is_same_name(block.name.as_ref(), name),
        None => false,
    }
}

/// The number of the block of which this is the head by another name, if it is one.
fn misnamed(blocks: &[Block], line: &ScheduleLine<'_>) -> Option<u32>
    ensures { result ≡ misnamed blocks.now (said_of line.now) }
{
    match *line {
        ScheduleLine::Head { number, name } if is_named_otherwise(blocks, number, name) => {
            Some(number)
        }
        _ => None,
    }
}

/// What `line` tells below `blocks`.
pub fn read_told_line<'a>(blocks: &[Block], line: &'a [u8]) -> ToldLine<'a>
    ensures { (n : ℕ) → Tells blocks.now n line.now (told_of n result) }
{
    match read_schedule_line(line) {
        Ok(found) => match misnamed(blocks, &found) {
            Some(number) => ToldLine::Misnamed(number, line),
            None => ToldLine::Reads(found),
        },
        Err(_) => ToldLine::Unread(line),
    }
}
