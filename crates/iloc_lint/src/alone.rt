//! What a line says, read as a text of its own.
ghost use Rattle.std.specs.Prelude.{◌≡◌, ◌≤◌, length};
ghost use Rattle.iloc_ops.specs.Limits.{MAX_INPUT};
ghost use Rattle.iloc_text.specs.Files.{HasNoLineEnd};
ghost use Rattle.iloc_lint.specs.Steps.Alone.{Says, unread_of};

use iloc_ops::{Block, NoMemory, Op};
use iloc_text::{ReadFault, TakeBlocks, read_blocks};
use std::alloc::Global;

/// What a line says.
#[derive(Clone, Copy, Drop)]
pub struct Content {
    /// Whether it has a label.
    pub labelled: bool,
    /// Its operation.
    pub op: Option<Op>,
}

/// Why it isn't known what a line says.
#[derive(Clone, Copy, Drop)]
pub enum Unknown {
    /// It would have no reading if numbers had no limit either.
    Bad,
    /// It would have one if numbers had no limit.
    TooLarge,
    /// An allocation failed.
    NoMemory,
}

impl TakeBlocks for Content {
    ghost use Rattle.std.specs.Prelude.{◌≡◌, refl};
    ghost use Rattle.iloc_lint.specs.Steps.Alone.{said_after};

    ghost took = { λ start blocks now. now ≡ said_after start blocks };

    fn take(&mut self, _alloc: Global, _number: usize, block: &Block) -> Result<(), NoMemory> {
        *self = Content {
            labelled: block.name.is_some(),
            op: block.ops.as_slice().first().copied(),
        };
        Ok(())
    }

    ghost took_none = { λ start. refl };
}

/// Why nothing is known of a line that is refused as a text of its own.
fn why_unread(fault: ReadFault) -> Unknown
    ensures { result ≡ unread_of fault }
{
    match fault {
        ReadFault::NoMemory => Unknown::NoMemory,
        ReadFault::NumberTooLarge(_) => Unknown::TooLarge,
        _ => Unknown::Bad,
    }
}

/// What the line says, or why that isn't known.
pub fn read_alone(alloc: Global, line: &[u8]) -> Result<Content, Unknown>
    requires single { HasNoLineEnd line.now }
    requires short { length line.now ≤ MAX_INPUT }
    ensures { Says line.now result }
{
    let mut said = Content {
        labelled: false,
        op: None,
    };
    match read_blocks(alloc, line, &mut said) {
        Ok(_) => Ok(said),
        Err(fault) => Err(why_unread(fault)),
    }
}
