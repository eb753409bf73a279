//! How operations are laid out: what precedes their numbers, by opcode.
ghost use Rattle.std.specs.Prelude.{◌≡◌, ◌≤◌, ◌+◌, ◌-◌, ◌++◌, drop, length};
ghost use Rattle.iloc_ops.specs.Spelling.{spelling, word_text};
ghost use Rattle.iloc_ops.specs.Steps.Laid.{IsShort, laid_out};

use crate::forms::form_of;
use crate::op::Op;

/// A text of at most eight bytes: the last `length` of `bytes`.
#[derive(Clone, Copy)]
pub struct Word {
    pub bytes: [u8; 8],
    pub length: usize,
}

/// The opcode, and what precedes each number.
#[derive(Clone, Copy)]
pub(crate) struct Layout {
    pub(crate) opcode: Word,
    pub(crate) first: Word,
    pub(crate) second: Word,
    pub(crate) third: Word,
}

/// The last bytes of these, so many.
macro_rules! word {
    ($bytes:literal, $length:literal) => {
        Word {
            bytes: *$bytes,
            length: $length,
        }
    };
}

/// The layout of an opcode, as a word, before these words and the numbers.
macro_rules! layout {
    ($bytes:literal, $length:literal, $first:expr, $second:expr, $third:expr) => {
        Layout {
            opcode: word!($bytes, $length),
            first: $first,
            second: $second,
            third: $third,
        }
    };
}

const NOTHING: Word = word!(b"        ", 0);

const VALUE: Word = word!(b"        ", 1);

const REGISTER: Word = word!(b"       r", 2);

const NEXT_VALUE: Word = word!(b"      , ", 2);

const NEXT_REGISTER: Word = word!(b"     , r", 3);

const TARGET: Word = word!(b"    => r", 5);

/// In the order of the declaration of opcodes.
pub(crate) static LAYOUTS: [Layout; 17] = [
    layout!(b"    load", 4, REGISTER, TARGET, NOTHING),
    layout!(b"   loadI", 5, VALUE, TARGET, NOTHING),
    layout!(b"   store", 5, REGISTER, TARGET, NOTHING),
    layout!(b"     add", 3, REGISTER, NEXT_REGISTER, TARGET),
    layout!(b"     sub", 3, REGISTER, NEXT_REGISTER, TARGET),
    layout!(b"    mult", 4, REGISTER, NEXT_REGISTER, TARGET),
    layout!(b"  lshift", 6, REGISTER, NEXT_REGISTER, TARGET),
    layout!(b"  rshift", 6, REGISTER, NEXT_REGISTER, TARGET),
    layout!(b"  output", 6, VALUE, NOTHING, NOTHING),
    layout!(b"     nop", 3, NOTHING, NOTHING, NOTHING),
    layout!(b"    addI", 4, REGISTER, NEXT_VALUE, TARGET),
    layout!(b"    subI", 4, REGISTER, NEXT_VALUE, TARGET),
    layout!(b"   multI", 5, REGISTER, NEXT_VALUE, TARGET),
    layout!(b" lshiftI", 7, REGISTER, NEXT_VALUE, TARGET),
    layout!(b" rshiftI", 7, REGISTER, NEXT_VALUE, TARGET),
    layout!(b"  loadAI", 6, REGISTER, NEXT_VALUE, TARGET),
    layout!(b" storeAI", 7, REGISTER, TARGET, NEXT_VALUE),
];

/// The layout of an operation.
#[inline(always)]
pub(crate) fn layout_of(op: &Op) -> &'static Layout
    ensures text { laid_out result.now op.now ≡ spelling op.now }
    ensures short { IsShort result.now }
{
    &LAYOUTS[form_of(op).0 as usize]
}

/// Writes the word, and gives where it starts.
///
/// Promise: the word is written just before `end`; the bytes after `end` stay.
#[inline(always)]
pub fn write_word(line: &mut [u8], end: usize, word: &Word) -> usize
    requires { (8 ≤ end) × (end ≤ length line.old) × (word.now.length ≤ 8) }
    ensures start { result + word.now.length ≡ end }
    ensures length { length line.new ≡ length line.old }
    ensures written { drop result line.new ≡ word_text word.now ++ drop end line.old }
{
    write_last(line, end, &word.bytes, word.length)
}

/// Writes eight bytes, and gives where the last `count` of them start. A copy of the slice would test whether the two overlap.
#[inline(always)]
fn write_last(line: &mut [u8], end: usize, bytes: &[u8], count: usize) -> usize
    requires { (8 ≤ end) × (end ≤ length line.old) × (length bytes.now ≡ 8) × (count ≤ 8) }
    ensures start { result + count ≡ end }
    ensures length { length line.new ≡ length line.old }
    ensures written { drop result line.new ≡ drop (8 - count) bytes.now ++ drop end line.old }
{
    let (a, b, c, d) = (bytes[0], bytes[1], bytes[2], bytes[3]);
    let (e, f, g, h) = (bytes[4], bytes[5], bytes[6], bytes[7]);
    let at = end - 8;
    line[at + 7] = h;
    line[at + 6] = g;
    line[at + 5] = f;
    line[at + 4] = e;
    line[at + 3] = d;
    line[at + 2] = c;
    line[at + 1] = b;
    line[at] = a;
    end - count
}
