//! The operations of ILOC, their blocks and limits, and how operations and numbers are written.
#![tactic(auto)]

mod column;
mod file;
mod forms;
pub mod laws;
mod limits;
mod name;
mod no_memory;
mod op;
mod ops;
mod registers;
mod spelling;

pub use column::push_column;
pub use file::{Block, Blocks, IlocFile};
pub use forms::{OPCODES, Opcode, Operands, form_of, op_of};
pub use limits::{MAX_BLOCKS, MAX_INPUT, MAX_NUMBER, MAX_OPS};
pub use name::Name;
pub use no_memory::NoMemory;
pub use op::{Op, Reg};
pub use ops::Ops;
pub use registers::{defines, uses};
pub use spelling::{
    LONGEST_OPERATION, Word, push_number, push_op, write_op, write_text, write_word,
};
