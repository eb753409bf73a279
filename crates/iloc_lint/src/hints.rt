//! What is worth a look in a text that reads, and no fault.
ghost use Rattle.std.specs.Prelude.{◌≤◌, length};
ghost use Rattle.iloc_ops.specs.Limits.{MAX_INPUT};
ghost use Rattle.iloc_text.specs.Files.{HasNoLineEnd};

use crate::alone::{Content, Unknown, read_alone};
use crate::hint::Hint;
use iloc_ops::{MAX_INPUT, NoMemory, Op, defines, uses};
use iloc_text::split_line;
use std::alloc::Global;
use std::collections::BTreeMap;
use std::mem;

/// At most so many hints are given.
const MOST: u32 = 20;

/// A value that a register was given.
#[derive(Clone, Copy, Drop)]
struct Value {
    /// The line of the operation that gave it.
    line: u32,
    is_used: bool,
}

/// The hints so far, and what they depend on.
#[derive(Drop)]
struct Hints {
    alloc: Global,
    found: Vec<Hint>,
    /// How many there are, those that aren't given too.
    count: u32,
    /// The values of this block's registers.
    values: BTreeMap<u32, Value>,
    /// How many lines have a label with an operation on the same line.
    headed: u32,
    /// How many have another operation.
    others: u32,
    /// How far the lines have come to what may be another file's end: 1 after an `output`, 2 after an empty line behind it.
    ended: u8,
}

impl Hints {
    fn new(alloc: Global) -> Hints {
        Hints {
            alloc,
            found: Vec::new(alloc),
            count: 0,
            values: BTreeMap::new(alloc),
            headed: 0,
            others: 0,
            ended: 0,
        }
    }

    /// Adds a hint, if not too many are given.
    fn add(&mut self, hint: Hint) -> Result<(), NoMemory> {
        self.count = self.count.saturating_add(1);
        if self.count <= MOST {
            self.found.push(hint)?;
        }
        Ok(())
    }

    /// Nothing uses this value any more.
    fn end_value(&mut self, register: u32, value: Value) -> Result<(), NoMemory> {
        if value.is_used {
            return Ok(());
        }
        self.add(Hint::Unused(value.line, register))
    }

    /// Notes that an operation on a line uses a register.
    fn use_of(&mut self, line: u32, register: u32) -> Result<(), NoMemory> {
        let line = match self.values.get(&register).copied() {
            Some(value) => value.line,
            None => {
                self.add(Hint::Unset(line, register))?;
                line
            }
        };
        self.values.insert(
            register,
            Value {
                line,
                is_used: true,
            },
        )?;
        Ok(())
    }

    /// Notes an operation.
    fn note(&mut self, line: u32, op: &Op) -> Result<(), NoMemory> {
        for register in uses(op).as_slice() {
            self.use_of(line, register.0)?;
        }
        if let Some(register) = defines(op) {
            if let Some(value) = self.values.get(&register.0).copied() {
                self.end_value(register.0, value)?;
            }
            self.values.insert(
                register.0,
                Value {
                    line,
                    is_used: false,
                },
            )?;
        }
        Ok(())
    }

    /// Ends a block.
    fn end_block(&mut self) -> Result<(), NoMemory> {
        let values = mem::replace(&mut self.values, BTreeMap::new(self.alloc));
        for (register, value) in values.iter() {
            self.end_value(*register, *value)?;
        }
        Ok(())
    }

    /// Notes whether what may be another file's end was passed.
    fn note_end(&mut self, line: u32, said: &Content) -> Result<(), NoMemory> {
        self.ended = match (said.labelled, said.op, self.ended) {
            (true, _, _) => 0,
            (_, Some(Op::Output { .. }), 0 | 1) => 1,
            (_, None, 1 | 2) => 2,
            (_, Some(_), 2) => {
                self.add(Hint::GoesOn(line))?;
                0
            }
            _ => 0,
        };
        Ok(())
    }

    /// Notes a line.
    fn note_line(&mut self, line: u32, said: &Content) -> Result<(), NoMemory> {
        self.note_end(line, said)?;
        if said.labelled {
            self.end_block()?;
        }
        let Some(op) = &said.op else { return Ok(()) };
        if said.labelled {
            self.headed = self.headed.saturating_add(1);
        } else {
            self.others = self.others.saturating_add(1);
        }
        self.note(line, op)
    }

    /// Reads and notes a line, if it reads.
    fn read(&mut self, line: u32, bytes: &[u8]) -> Result<(), NoMemory>
        requires single { HasNoLineEnd bytes.now }
        requires short { length bytes.now ≤ MAX_INPUT }
    {
        match read_alone(self.alloc, bytes) {
            Ok(said) => self.note_line(line, &said),
            Err(Unknown::NoMemory) => Err(NoMemory),
            Err(_) => Ok(()),
        }
    }

    /// Adds what can only be said at the end.
    fn finish(mut self) -> Result<Vec<Hint>, NoMemory> {
        self.end_block()?;
        let mut hints = Vec::new(self.alloc);
        if self.headed > 2 && self.others == 0 {
            hints.push(Hint::AllHeaded)?;
            self.count = self.count.saturating_add(1);
        }
        hints.extend_from_slice(&self.found)?;
        if self.count > MOST {
            hints.truncate(MOST as usize);
            hints.push(Hint::More(self.count - MOST))?;
        }
        Ok(hints)
    }
}

/// Hints on a text that reads.
pub fn hints_on(alloc: Global, input: &[u8]) -> Result<Vec<Hint>, NoMemory> {
    if input.len() > MAX_INPUT {
        return Ok(Vec::new(alloc));
    }
    let mut hints = Hints::new(alloc);
    let mut line = 0u32;
    let mut rest = Some(input);
    while let Some(text) = rest {
        let (bytes, after) = split_line(text);
        line = line.saturating_add(1);
        hints.read(line, bytes)?;
        rest = after;
    }
    hints.finish()
}
