//! Lines that are rows of a table where one is asked for.
ghost use Rattle.std.specs.Prelude.{◌≡◌, ◌<◌, ◌^◌, ◌++◌, OnOk};
ghost use Rattle.std.specs.Option.{option_copied};
ghost use Rattle.iloc_listing.specs.Listing.{count_line};
ghost use Rattle.iloc_listing.specs.Listing as listed;

use crate::lines::{push_block_head, push_numbered};
use iloc_ops::{Name, NoMemory, push_column};

/// Appends the header of a table, if one is asked for.
pub fn push_opening(text: &mut Vec<u8>, csv: bool, header: &[u8]) -> Result<(), NoMemory>
    ensures { OnOk result (text.new.items ≡ text.old.items ++ listed.opening_as csv header.now) }
{
    if csv {
        text.extend_from_slice(header)?;
    }
    Ok(())
}

/// Appends `K,NAME` in a table, and else `block K NAME`, with `-` for a block without a name.
pub fn push_head(
    text: &mut Vec<u8>,
    csv: bool,
    number: usize,
    name: Option<&Name>,
) -> Result<(), NoMemory>
    requires { number < 2 ^ 63 }
    ensures { OnOk result
        (text.new.items ≡ text.old.items ++ listed.head_as csv number (option_copied name.entry)) }
{
    if !csv {
        return push_block_head(text, number, name);
    }
    let name = match name {
        Some(name) => name.as_str(),
        None => "-",
    };
    push_numbered(text, b"", number as u64, b",")?;
    text.extend_from_slice(name.as_bytes())?;
    Ok(())
}

/// Appends `,N` in a table, and else ` LABEL N`.
pub fn push_field(text: &mut Vec<u8>, csv: bool, label: &str, number: u64) -> Result<(), NoMemory>
    ensures { OnOk result (text.new.items ≡ text.old.items ++ listed.field csv label.now number) }
{
    if csv {
        return push_numbered(text, b",", number, b"");
    }
    push_column(text, label, number)
}

/// Appends the line of block `number`, counted from 1, whose schedule takes `cycles` cycles, or its row in a table.
pub fn push_count(
    text: &mut Vec<u8>,
    csv: bool,
    number: usize,
    name: Option<&Name>,
    cycles: u64,
) -> Result<(), NoMemory>
    requires { number < 2 ^ 63 }
    ensures { OnOk result (text.new.items
        ≡ text.old.items ++ count_line csv number (option_copied name.entry) cycles) }
{
    push_head(text, csv, number, name)?;
    let label: &[u8] = if csv { b"," } else { b" cycles " };
    push_numbered(text, label, cycles, b"\n")
}
