//! The text of ILOC: its operations and files, how they are read, and how they are spelled.
//!
//! Functions are marked `inline` and `cold` for speed: without all marks here and in `iloc_ops` `counts` takes 8 to 26 % more
//! processor time.
#![tactic(auto)]

mod fault;
pub mod laws;
mod line;
mod line_ends;
mod reader;
mod stream;
mod text_parts;

pub use fault::{InputFault, ReadFault, StreamFault};
pub use iloc_ops::{
    Block, Blocks, IlocFile, Name, NoMemory, Op, Ops, Reg, defines, push_number, push_op, uses,
};
pub use line::ParseFault;
pub use line::scan::{is_blank, is_word_byte};
pub use line::schedule_line::{ScheduleLine, read_schedule_line};
pub use line_ends::split_line;
pub use reader::taker::TakeBlocks;
pub use reader::{read_blocks, read_file};
pub use stream::parts::{ReadParts, read_file_in_parts};
pub use stream::{read_blocks_from, read_file_from, read_text_from};
pub use text_parts::TextPart;
