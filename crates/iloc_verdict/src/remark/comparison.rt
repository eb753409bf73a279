//! How rows compare with their block.
ghost use Rattle.std.specs.Prelude.{◌≡◌, ◌++◌, OnOk};
ghost use Rattle.iloc_pieces.specs.Pieces.{piece_text};
ghost use Rattle.iloc_verdict.specs.Counted.{CanBeNumbered};
ghost use Rattle.iloc_verdict.specs.Remarks.{difference_remark, value_text, void_remark};

use super::Part::{Plain, Quoted, Words};
use super::{either, push_remark};
use Piece::{Number, Operation, Signed};
use iloc_comparison::{Difference, Form, Void};
use iloc_ops::NoMemory;
use iloc_pieces::Piece;

/// Appends why a block's outcome says nothing.
pub(crate) fn push_void(text: &mut Vec<u8>, form: Form, why: &Void) -> Result<(), NoMemory>
    ensures { OnOk result (text.new.items ≡ text.old.items ++ void_remark form why.now) }
{
    match *why {
        Void::Faults(op) => {
            let operation = Quoted("the block faults: ", "operation", Operation(op));
            push_remark(text, form, "faults", &[operation])
        }
        Void::ShowsNothing => {
            let words = Words("the block shows nothing");
            push_remark(text, form, "shows_nothing", &[words])
        }
    }
}

/// A word, `none` or null where there is none.
fn value<'a>(form: Form, word: Option<i32>) -> Piece<'a>
    ensures { piece_text result ≡ value_text form word }
{
    match word {
        Some(word) => Signed(word),
        None => either(form, "none", "null"),
    }
}

/// Appends where two outcomes differ.
pub(crate) fn push_difference(
    text: &mut Vec<u8>,
    form: Form,
    difference: &Difference,
) -> Result<(), NoMemory>
    requires { CanBeNumbered difference.now }
    ensures { OnOk result (text.new.items ≡ text.old.items ++ difference_remark form difference.now) }
{
    match *difference {
        Difference::Output { index, got, wanted } => {
            let number = Plain("output ", "number", Number(index as u64 + 1));
            let got = Plain(": ", "got", value(form, got));
            let wanted = Plain(" for ", "wanted", value(form, wanted));
            push_remark(text, form, "output", &[number, got, wanted])
        }
        Difference::Word {
            address,
            got,
            wanted,
        } => {
            let address = Plain("word ", "address", Number(u64::from(address)));
            let got = Plain(": ", "got", Signed(got));
            let wanted = Plain(" for ", "wanted", Signed(wanted));
            push_remark(text, form, "word", &[address, got, wanted])
        }
        Difference::Fault => push_remark(text, form, "fault", &[Words("fault")]),
        Difference::NoFault => push_remark(text, form, "no_fault", &[Words("no fault")]),
    }
}
