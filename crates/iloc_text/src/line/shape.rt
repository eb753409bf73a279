//! How operations are mostly written: the texts of the opcodes, and what precedes each number after them.
ghost use Rattle.std.specs.Prelude.{◌≡◌};
ghost use Rattle.iloc_text.specs.Steps.FastPath.{shape_of};

use iloc_ops::Opcode;

/// What precedes a number of an operation.
#[derive(Clone, Copy)]
pub enum Kind {
    /// Nothing, and there is no number.
    Nothing,
    BlankRegister,
    BlankConstant,
    CommaRegister,
    CommaConstant,
    ArrowRegister,
}

/// A text of at most eight bytes: they are those of `word`, the first of them the lowest, and their bits those of `mask`.
pub struct Text {
    pub word: u64,
    pub mask: u64,
    pub length: usize,
}

macro_rules! text {
    ($word:literal, $length:literal) => {
        Text {
            word: $word,
            mask: (1 << (8 * $length)) - 1,
            length: $length,
        }
    };
}

/// A text before a constant: the high half of the byte behind it is that of a digit. Where another blank isn't told from a digit,
/// a text whose operands stand in columns takes `run` twice as many instructions.
macro_rules! text_before_digit {
    ($word:literal, $length:literal) => {
        Text {
            word: $word + (0x30 << (8 * $length)),
            mask: (0xf1 << (8 * $length)) - 1,
            length: $length,
        }
    };
}

/// What mostly precedes a number.
pub struct Lead {
    pub kind: Kind,
    pub usual: Text,
    /// The bytes of the usual text with a tab for its first blank. Without them a text with tabs after opcodes and before arrows
    /// takes `run` 40 % more instructions.
    pub tabbed: u64,
    /// The text without blanks, where there can be none. Without it a text of such lines takes `run` 21 % more instructions.
    pub tight: Text,
}

const NOTHING: Lead = Lead {
    kind: Kind::Nothing,
    usual: text!(0, 0),
    tabbed: 0,
    tight: text!(0, 0),
};

const BLANK_REGISTER: Lead = Lead {
    kind: Kind::BlankRegister,
    usual: text!(0x7220, 2),
    tabbed: 0x7209,
    tight: text!(0x7220, 2),
};

const BLANK_CONSTANT: Lead = Lead {
    kind: Kind::BlankConstant,
    usual: text_before_digit!(0x20, 1),
    tabbed: 0x3009,
    tight: text_before_digit!(0x20, 1),
};

const COMMA_REGISTER: Lead = Lead {
    kind: Kind::CommaRegister,
    usual: text!(0x72_202c, 3),
    tabbed: 0x72_092c,
    tight: text!(0x722c, 2),
};

const COMMA_CONSTANT: Lead = Lead {
    kind: Kind::CommaConstant,
    usual: text_before_digit!(0x202c, 2),
    tabbed: 0x30_092c,
    tight: text_before_digit!(0x2c, 1),
};

const ARROW_REGISTER: Lead = Lead {
    kind: Kind::ArrowRegister,
    usual: text!(0x72_203e_3d20, 5),
    tabbed: 0x72_203e_3d09,
    tight: text!(0x72_3e3d, 3),
};

/// How the operations of an opcode are mostly written: its text, and what precedes each operand.
pub struct Shape {
    pub text: Text,
    pub first: Lead,
    pub second: Lead,
    pub third: Lead,
}

/// The shape of operations with these leads, without the text of an opcode.
macro_rules! operands {
    ($first:expr, $second:expr, $third:expr) => {
        Shape {
            text: text!(0, 0),
            first: $first,
            second: $second,
            third: $third,
        }
    };
}

const NONE: Shape = operands!(NOTHING, NOTHING, NOTHING);

const CONSTANT: Shape = operands!(BLANK_CONSTANT, NOTHING, NOTHING);

const IMMEDIATE: Shape = operands!(BLANK_CONSTANT, ARROW_REGISTER, NOTHING);

const COPIED: Shape = operands!(BLANK_REGISTER, ARROW_REGISTER, NOTHING);

const SOURCES: Shape = operands!(BLANK_REGISTER, COMMA_REGISTER, ARROW_REGISTER);

const WITH_CONSTANT: Shape = operands!(BLANK_REGISTER, COMMA_CONSTANT, ARROW_REGISTER);

const STORED_AT: Shape = operands!(BLANK_REGISTER, ARROW_REGISTER, COMMA_CONSTANT);

macro_rules! shape {
    ($word:literal, $length:literal, $operands:expr) => {
        Shape {
            text: text!($word, $length),
            ..$operands
        }
    };
}

/// By opcode, in the order of their declaration.
const SHAPES: &[Shape; 17] = &[
    // load
    shape!(0x6461_6f6c, 4, COPIED),
    // loadI
    shape!(0x49_6461_6f6c, 5, IMMEDIATE),
    // store
    shape!(0x65_726f_7473, 5, COPIED),
    // add
    shape!(0x64_6461, 3, SOURCES),
    // sub
    shape!(0x62_7573, 3, SOURCES),
    // mult
    shape!(0x746c_756d, 4, SOURCES),
    // lshift
    shape!(0x7466_6968_736c, 6, SOURCES),
    // rshift
    shape!(0x7466_6968_7372, 6, SOURCES),
    // output
    shape!(0x7475_7074_756f, 6, CONSTANT),
    // nop
    shape!(0x70_6f6e, 3, NONE),
    // addI
    shape!(0x4964_6461, 4, WITH_CONSTANT),
    // subI
    shape!(0x4962_7573, 4, WITH_CONSTANT),
    // multI
    shape!(0x49_746c_756d, 5, WITH_CONSTANT),
    // lshiftI
    shape!(0x49_7466_6968_736c, 7, WITH_CONSTANT),
    // rshiftI
    shape!(0x49_7466_6968_7372, 7, WITH_CONSTANT),
    // loadAI
    shape!(0x4941_6461_6f6c, 6, WITH_CONSTANT),
    // storeAI
    shape!(0x49_4165_726f_7473, 7, STORED_AT),
];

impl Shape {
    /// How the operations of an opcode are mostly written.
    #[inline(always)]
    pub fn of(opcode: Opcode) -> &'static Shape
        ensures { result.now ≡ shape_of opcode }
    {
        &SHAPES[opcode as usize]
    }
}
