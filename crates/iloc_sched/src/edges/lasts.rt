//! The earlier operations that a later one may have to wait for.
ghost use Rattle.std.specs.Prelude.{◌≡◌, ◌≤◌, ◌<◌, ◌+◌, length, List, OnOk};
ghost use Rattle.iloc_ops.specs.declared.op.Op.{Op};
ghost use Rattle.iloc_ops.specs.Registers.{defined as defined_by};
ghost use Rattle.iloc_meaning.specs.Trace.{op_at};
ghost use Rattle.iloc_timed.specs.Kinds.{kind as kind_of};

use crate::by_register::ByRegister;
use iloc_ops::{MAX_OPS, NoMemory, Reg};
use iloc_timed::Kind;
use std::alloc::Global;

/// The last definitions, store, output and loads before an operation.
#[derive(Drop)]
pub struct Lasts {
    /// By register the last operation that defines it.
    pub definers: ByRegister,
    /// The last store.
    pub store: Option<u32>,
    /// The last output.
    pub output: Option<u32>,
    /// The loads since the last store.
    pub loads: Vec<u32>,
}

impl Lasts {
    ghost use Rattle.iloc_sched.specs.Steps.Edges.Lasts.{IsLasts, NotesDefiner, NotesKind, loads_before};

    /// Before the first operation of a list.
    pub fn new(alloc: Global) -> Lasts
        ensures { (ops : List Op) → IsLasts ops result 0 }
    {
        Lasts {
            definers: ByRegister::new(alloc),
            store: None,
            output: None,
            loads: Vec::new(alloc),
        }
    }

    /// Before the first operation of a list. From now on registers below the limit are looked up fastest.
    pub fn clear(&mut self, registers: usize)
        ensures lasts { (ops : List Op) → IsLasts ops self.new 0 }
        ensures loads { length self.new.loads.items ≡ 0 }
    {
        self.store = None;
        self.output = None;
        self.loads.clear();
        self.definers.clear(registers);
    }

    /// Notes what operation j defines.
    fn note_definition(&mut self, defined: Option<Reg>, j: u32) -> Result<(), NoMemory>
        ensures definers { OnOk result ((op : Op) → defined ≡ defined_by op
            → NotesDefiner op self.old.definers self.new.definers j) }
        ensures others { self.new ≡ record self.old { definers = self.new.definers } }
    {
        match defined {
            Some(register) => self.definers.set(register, j),
            None => Ok(()),
        }
    }

    /// Operation j, of this kind, is one of the earlier ones from now on.
    #[inline(always)]
    fn note_kind(&mut self, kind: Kind, j: u32) -> Result<(), NoMemory>
        ensures kind { OnOk result (NotesKind kind self.old self.new j) }
        ensures definers { self.new.definers ≡ self.old.definers }
    {
        match kind {
            Kind::Load => self.loads.push(j)?,
            Kind::Store => {
                self.store = Some(j);
                self.loads.clear();
            }
            Kind::Output => self.output = Some(j),
            Kind::Mult | Kind::Other => {}
        }
        Ok(())
    }

    /// Operation j, of this kind, is one of the earlier ones from now on.
    #[inline(always)]
    pub fn note(&mut self, kind: Kind, defined: Option<Reg>, j: usize) -> Result<(), NoMemory>
        requires few { j < MAX_OPS }
        ensures lasts { OnOk result ((ops : List Op) → kind ≡ kind_of (op_at ops j) → defined ≡ defined_by (op_at ops j)
            → IsLasts ops self.old j → IsLasts ops self.new (j + 1)) }
        ensures loads { OnOk result (length self.new.loads.items + loads_before kind self.old
            ≤ length self.old.loads.items + 1) }
    {
        // The kind first, next to the edges by kind, so that both share jumps: in the other order `counts` mispredicts 0.3
        // branches more for each operation.
        self.note_kind(kind, j as u32)?;
        self.note_definition(defined, j as u32)
    }
}
