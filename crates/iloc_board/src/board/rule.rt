//! The rule of the board's table, and its six kinds of atomic steps.
ghost use Rattle.iloc_board.specs.Steps.Rule.{IsKept, root_seat, spent_seat, looks, tells_all, tries, hands, makes, made_pass, gathers};
ghost use Rattle.std.specs.Prelude.{[]};

use crate::board::seat_view::SeatView;
use atomic_table::{Join, Play, Split, TableRule};

/// The rule. The table is told how many jobs there are.
pub struct Order;

impl TableRule<(), SeatView, u32> for Order {
    ghost holds = { IsKept };

    ghost first = { λ count. root_seat count 0 [] };
}

/// A pass loads the next job.
pub struct Looking;

impl Play<(), SeatView> for Looking {
    ghost then = { looks };
}

/// A root loads the next job, and is told of all steps.
pub struct Telling;

impl Play<(), SeatView> for Telling {
    ghost then = { tells_all };
}

/// A pass exchanges the next job for the one after it.
pub struct Trying;

impl Play<(), SeatView> for Trying {
    ghost then = { tries };
}

/// A pass stores the cost of the job that it holds.
pub struct Handing;

impl Play<(), SeatView> for Handing {
    ghost then = { hands };
}

/// A root makes a pass.
pub struct Making;

impl Split<SeatView> for Making {
    ghost left = { makes };

    ghost right = { made_pass };
}

/// A root gathers a pass.
pub struct Gathering;

impl Join<SeatView> for Gathering {
    ghost both = { gathers };

    ghost spent = { spent_seat };
}
