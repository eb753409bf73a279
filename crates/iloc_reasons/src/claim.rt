//! What may be a fact of rows, by the numbers of operations, and whether it is one.
ghost use Rattle.std.specs.Prelude.{◌≡◌, ◌<◌, ◌⊎◌, true, Some, IfSome, slice_get};
ghost use Rattle.iloc_ops.specs.Registers.{used};
ghost use Rattle.iloc_timed.specs.declared.kind.Kind.TheVariants as kinds;
ghost use Rattle.iloc_rules.specs.Delays.{keeps_order};
ghost use Rattle.iloc_facts.specs.Facts.{AreAgainst, HasBeenThere, HasLabel, IsFact};
ghost use Rattle.iloc_reasons.specs.Steps.Likeness.{TellApart};
ghost use Rattle.iloc_reasons.specs.Steps.Sides.{AreNoted, source_at};

use crate::counterpart::seen;
use crate::likeness::Terms;
use crate::terms::at;
use iloc_facts::{Fact, Issue, Sides, Sources, have_one_label};
use iloc_ops::{Op, Reg, defines, uses};
use iloc_timed::Kind;
use std::collections::BTreeMap;

/// What may be a fact of operation k of rows.
#[derive(Clone, Copy, PartialEq, Eq)]
pub(crate) struct Claim {
    pub k: usize,
    pub what: What,
}

/// What may be said of an operation.
#[derive(Clone, Copy, PartialEq, Eq)]
pub(crate) enum What {
    /// It is issued while this store is under way.
    While { store: usize },
    /// It reads at this place a register for which this result is under way.
    ReadsBefore { place: usize, late: usize },
    /// It reads at this place what came over this result, or over the start of the register.
    ReadsOver { place: usize, lost: Option<usize> },
    /// Its result is never read.
    NeverRead,
    /// It is on the wrong side of this one: the block has them, by these numbers, in the other order.
    Beside { other: usize, i: usize, o: usize },
    /// It stands for this one of the block.
    For { op: usize },
    /// None of the block is like it.
    LikeNone,
    /// It doesn't read what this one of the block reads, its counterpart.
    See { op: usize },
}

/// Whether an operation of this kind waits for the stores that are under way.
fn waits(kind: Kind) -> bool
    ensures { result ≡ true → (kind ≡ kinds.Load) ⊎ (kind ≡ kinds.Output) }
{
    matches!(kind, Kind::Load | Kind::Output)
}

/// Whether the second has to come after the first where it stands behind it in the block.
fn keep_order(first: Kind, second: Kind) -> bool
    ensures { result ≡ keeps_order first second }
{
    match second {
        Kind::Store => first != Kind::Mult && first != Kind::Other,
        Kind::Output => first == Kind::Output,
        _ => false,
    }
}

/// The register that an operation reads at a place, left to right.
fn register_at(op: &Op, place: usize) -> Option<Reg>
    ensures { IfSome result (λ register. slice_get (used op.now) place ≡ Some register) }
{
    uses(op).get(place).copied()
}

/// What is read at a place, left to right.
pub(crate) fn source_at(sources: Sources, place: usize) -> Option<usize>
    ensures { result ≡ source_at sources place }
{
    match (sources, place) {
        (Sources::One(only), 0) => only,
        (Sources::Two(left, _), 0) => left,
        (Sources::Two(_, right), 1) => right,
        _ => None,
    }
}

/// Load or output k is issued while a store is under way.
fn under_way(sides: &Sides, k: usize, store: usize) -> Option<Fact>
    ensures { IfSome result (IsFact sides.now.latencies.now sides.now.block.items sides.now.schedule.now.ops
        sides.now.schedule.now.rows) }
{
    let issue = sides.issue(k)?;
    let it = sides.issue(store)?;
    let over = sides.due(store)?;
    if Kind::of(&it.op) == Kind::Store
        && waits(Kind::of(&issue.op))
        && it.cycle <= issue.cycle
        && issue.cycle < over
    {
        return Some(Fact::UnderWay {
            issue,
            store: it,
            due: over,
        });
    }
    None
}

/// Operation k reads at a place a register for which the result of another is under way.
fn brings(sides: &Sides, k: usize, place: usize, late: usize) -> Option<Fact>
    ensures { IfSome result (IsFact sides.now.latencies.now sides.now.block.items sides.now.schedule.now.ops
        sides.now.schedule.now.rows) }
{
    let issue = sides.issue(k)?;
    let register = register_at(&issue.op, place)?;
    let it = sides.issue(late)?;
    let arrives = sides.due(late)?;
    if late != k
        && defines(&it.op) == Some(register)
        && it.cycle <= issue.cycle
        && issue.cycle < arrives
    {
        return Some(Fact::Brings {
            issue,
            register,
            late: it,
            due: arrives,
        });
    }
    None
}

/// What a register had by a cycle, other than the result of operation j: that of another one, or none at the start.
fn been_there(
    sides: &Sides,
    cycle: usize,
    register: Reg,
    j: usize,
    lost: Option<usize>,
) -> Option<Option<Issue>>
    ensures { IfSome result (HasBeenThere sides.now.latencies.now sides.now.schedule.now.ops sides.now.schedule.now.rows
        cycle register j) }
{
    let Some(l) = lost else {
        return Some(None);
    };
    let it = sides.issue(l)?;
    let due = sides.due(l)?;
    if l != j && defines(&it.op) == Some(register) && due <= cycle {
        return Some(Some(it));
    }
    None
}

/// Operation k reads at a place a result that came over what was there.
fn replaced(sides: &Sides, k: usize, place: usize, lost: Option<usize>) -> Option<Fact>
    ensures { IfSome result (IsFact sides.now.latencies.now sides.now.block.items sides.now.schedule.now.ops
        sides.now.schedule.now.rows) }
{
    let issue = sides.issue(k)?;
    let register = register_at(&issue.op, place)?;
    let reading = sides.reading(k)?;
    let j = source_at(reading.sources, place)?;
    let from = sides.issue(j)?;
    let lost = been_there(sides, issue.cycle, register, j, lost)?;
    Some(Fact::Replaced {
        issue,
        register,
        from,
        lost,
    })
}

/// No operation reads the result of operation j.
fn never_read(sides: &Sides, read: &BTreeMap<usize, usize>, j: usize) -> Option<Fact>
    requires noted { AreNoted sides.now.readings.items read.now }
    ensures { IfSome result (IsFact sides.now.latencies.now sides.now.block.items sides.now.schedule.now.ops
        sides.now.schedule.now.rows) }
{
    let issue = sides.issue(j)?;
    defines(&issue.op)?;
    if read.get(&j).is_some() {
        return None;
    }
    Some(Fact::NeverRead { issue })
}

/// Whether the block's operation of a number differs from one in registers alone.
fn has_label(block: &[Op], i: usize, op: &Op) -> bool
    ensures { result ≡ true → HasLabel block.now i op.now }
{
    match block.get(i) {
        Some(other) => have_one_label(other, op),
        None => false,
    }
}

/// Whether operations `i` and `o` of the block aren't in the order of two that are issued in `cycle` and `other`.
fn are_against(i: usize, o: usize, cycle: usize, other: usize) -> bool
    ensures { result ≡ true → AreAgainst i o cycle other }
{
    if o < i {
        return cycle <= other;
    }
    i < o && other < cycle
}

/// Memory or outputs fix the order of operations `k` and `other`, and operations `i` and `o` of the block, which differ from them
/// in registers alone, come in the other order; `k` isn't alike to `o`, nor `other` to `i`.
fn ordered(sides: &Sides, terms: &Terms, k: usize, other: usize, i: usize, o: usize) -> Option<Fact>
    requires terms { TellApart sides.now.latencies.now sides.now.block.items sides.now.schedule.now.ops
        sides.now.schedule.now.rows terms.now }
    ensures { IfSome result (IsFact sides.now.latencies.now sides.now.block.items sides.now.schedule.now.ops
        sides.now.schedule.now.rows) }
{
    let issue = sides.issue(k)?;
    let it = sides.issue(other)?;
    let one = Kind::of(&issue.op);
    let two = Kind::of(&it.op);
    if other != k
        && (keep_order(one, two) || keep_order(two, one))
        && has_label(&sides.block, i, &issue.op)
        && has_label(&sides.block, o, &it.op)
        && are_against(i, o, issue.cycle, it.cycle)
        && at(&terms.block, o) != at(&terms.rows, k)
        && at(&terms.block, i) != at(&terms.rows, other)
    {
        return Some(Fact::Order { issue, other: it });
    }
    None
}

/// Operation k has the label of operation i of the block, and isn't alike to it.
fn stands_for(sides: &Sides, terms: &Terms, k: usize, i: usize) -> Option<Fact>
    requires terms { TellApart sides.now.latencies.now sides.now.block.items sides.now.schedule.now.ops
        sides.now.schedule.now.rows terms.now }
    ensures { IfSome result (IsFact sides.now.latencies.now sides.now.block.items sides.now.schedule.now.ops
        sides.now.schedule.now.rows) }
{
    let issue = sides.issue(k)?;
    let op = sides.block.get(i)?;
    if have_one_label(&issue.op, op) && at(&terms.block, i) != at(&terms.rows, k) {
        return Some(Fact::For {
            issue,
            number: i,
            op: *op,
        });
    }
    None
}

/// No operation of the block is like operation k.
fn like_none(sides: &Sides, terms: &Terms, k: usize) -> Option<Fact>
    requires terms { TellApart sides.now.latencies.now sides.now.block.items sides.now.schedule.now.ops
        sides.now.schedule.now.rows terms.now }
    ensures { IfSome result (IsFact sides.now.latencies.now sides.now.block.items sides.now.schedule.now.ops
        sides.now.schedule.now.rows) }
{
    let issue = sides.issue(k)?;
    match terms.known.get(&at(&terms.rows, k)) {
        None => Some(Fact::LikeNone { issue }),
        Some(_) => None,
    }
}

impl Claim {
    /// The fact that it claims, if it is one.
    pub(crate) fn fact(
        self,
        sides: &Sides,
        terms: &Terms,
        read: &BTreeMap<usize, usize>,
    ) -> Option<Fact>
        requires terms { TellApart sides.now.latencies.now sides.now.block.items sides.now.schedule.now.ops
            sides.now.schedule.now.rows terms.now }
        requires noted { AreNoted sides.now.readings.items read.now }
        ensures { IfSome result (IsFact sides.now.latencies.now sides.now.block.items sides.now.schedule.now.ops
            sides.now.schedule.now.rows) }
    {
        let k = self.k;
        match self.what {
            What::While { store } => under_way(sides, k, store),
            What::ReadsBefore { place, late } => brings(sides, k, place, late),
            What::ReadsOver { place, lost } => replaced(sides, k, place, lost),
            What::NeverRead => never_read(sides, read, k),
            What::Beside { other, i, o } => ordered(sides, terms, k, other, i, o),
            What::For { op } => stands_for(sides, terms, k, op),
            What::LikeNone => like_none(sides, terms, k),
            What::See { op } => seen(sides, k, op),
        }
    }
}
