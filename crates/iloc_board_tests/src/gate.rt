ghost use Rattle.std.specs.Prelude.{◌≡◌, false};
ghost use Rattle.iloc_board.specs.declared.board.state.State.TheVariants as about;
ghost use Rattle.iloc_board.specs.Core.{is_holding};
ghost use Rattle.iloc_board.specs.Views.{state};

use crate::tens::Tens;
use iloc_board::{Board, Gate, Pass, Seen, work};
use std::alloc::Global;
use std::cell::Cell;
use std::process::Abort;
use std::test::*;

#[derive(Clone, Copy, PartialEq, Eq)]
enum Call {
    Looked,
    Took,
}

/// A call of the gate, the worker and the job that it was told of, and what was next just then.
type Told = (Call, u32, u32, Seen);

// Writes down what a gate is told, and looks each time by a pass of its own.
#[derive(Drop)]
struct Witness<'b, 'a> {
    board: &'b Board<'a, Tens>,
    pass: Pass<'a, Tens>,
    told: Vec<Told>,
    ghost own: { pass.board ≡ board.now },
    ghost idle: { is_holding (state pass) ≡ false },
}

impl Witness<'_, '_> {
    /// For want of memory the note is missing.
    fn note(&mut self, call: Call, worker: u32, job: u32) {
        let next = self.board.look(&mut self.pass);
        let _ = self.told.push((call, worker, job, next));
    }
}

struct Witnessed<'b, 'a>(Cell<Option<Witness<'b, 'a>>>);

impl Witnessed<'_, '_> {
    fn note(&self, call: Call, worker: u32, job: u32) {
        if let Some(mut witness) = self.0.take() {
            witness.note(call, worker, job);
            self.0.set(Some(witness));
        }
    }
}

impl Gate for Witnessed<'_, '_> {
    fn after_look(&self, worker: u32, k: u32) {
        self.note(Call::Looked, worker, k);
    }

    fn after_take(&self, worker: u32, k: u32) {
        self.note(Call::Took, worker, k);
    }
}

/// What the gate is told while the pass works.
fn calls<'b, 'a>(
    rt: &impl Abort,
    alloc: Global,
    board: &'b Board<'a, Tens>,
    bystander: Pass<'a, Tens>,
    pass: &mut Pass<'a, Tens>,
) -> Vec<Told>
    requires bystander { (bystander.board ≡ board.now) × (is_holding (state bystander) ≡ false) }
    requires pass { (pass.old.board ≡ board.now) × (state pass.old ≡ about.Free) }
{
    let witness = Witness {
        board,
        pass: bystander,
        told: Vec::new(alloc),
    };
    let gate = Witnessed(Cell::new(Some(witness)));
    assert!(rt; work(board, pass, &gate).is_ok());
    let Witnessed(cell) = gate;
    let Some(Witness { told, .. }) = cell.into_inner() else {
        panic!(rt; "the witness is gone");
    };
    told
}

/// What worker 1 tells.
const TOLD: &[Told] = &[
    (Call::Looked, 1, 0, Seen::Block(0)),
    (Call::Took, 1, 0, Seen::Block(1)),
    (Call::Looked, 1, 1, Seen::Block(1)),
    (Call::Took, 1, 1, Seen::NoneLeft),
];

#[test]
fn the_gate_is_told_of_each_look_and_each_take(rt: HostRuntime) -> Result<(), Fail> {
    let jobs = Tens { count: 2 };
    let (board, mut root) = Board::new(rt.alloc(), &jobs, 2)?;
    let bystander = board.pass(&mut root);
    let mut pass = board.pass(&mut root);
    let told = calls(&rt, rt.alloc(), &board, bystander, &mut pass);
    assert!(rt; told.as_slice() == TOLD);
    Ok(())
}
