//! The receipts for what workers list.
use iloc_block_commands::ComparedCycles;
use iloc_board::Receipt;
use iloc_listing::ScheduleEntry;

/// The receipt for what workers listed of a file, with all that they handed back.
#[derive(Drop)]
pub enum CommandReceipt {
    /// For `Schedule`, `Optimize` and `Explain`: each block's entry.
    Entries(Receipt<ScheduleEntry>),
    /// For `Counts`: the cycles of each block's schedule.
    Cycles(Receipt<u32>),
    /// For `Compare`: all that is compared of each block.
    Compared(Receipt<ComparedCycles>),
}

impl From<Receipt<ScheduleEntry>> for CommandReceipt {
    ghost use Rattle.std.specs.Prelude.{◌≡◌};
    ghost use Rattle.iloc_farm.specs.declared.receipt.CommandReceipt.TheVariants.{Entries};

    ghost from_gives = { λ kept receipt. receipt ≡ Entries kept };

    fn from(kept: Receipt<ScheduleEntry>) -> CommandReceipt {
        CommandReceipt::Entries(kept)
    }
}

impl From<Receipt<u32>> for CommandReceipt {
    ghost use Rattle.std.specs.Prelude.{◌≡◌};
    ghost use Rattle.iloc_farm.specs.declared.receipt.CommandReceipt.TheVariants.{Cycles};

    ghost from_gives = { λ kept receipt. receipt ≡ Cycles kept };

    fn from(kept: Receipt<u32>) -> CommandReceipt {
        CommandReceipt::Cycles(kept)
    }
}

impl From<Receipt<ComparedCycles>> for CommandReceipt {
    ghost use Rattle.std.specs.Prelude.{◌≡◌};
    ghost use Rattle.iloc_farm.specs.declared.receipt.CommandReceipt.TheVariants.{Compared};

    ghost from_gives = { λ kept receipt. receipt ≡ Compared kept };

    fn from(kept: Receipt<ComparedCycles>) -> CommandReceipt {
        CommandReceipt::Compared(kept)
    }
}
