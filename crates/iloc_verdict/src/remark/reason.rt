//! Why rows aren't a schedule of their block by the book.
ghost use Rattle.std.specs.Prelude.{◌≡◌, ◌++◌, ◌<◌, length, OnOk};
ghost use Rattle.iloc_facts.specs.declared.fact.Fact.TheVariants as facts;
ghost use Rattle.iloc_verdict.specs.Remarks.{alone_remark, fact_remark, side, units_remark};

use super::Part::{self, Lost, Plain, Quoted, Words};
use super::push_remark;
use crate::checked::unit_rule::broken_rule;
use Piece::{Number, Operation, Text};
use iloc_comparison::Form;
use iloc_facts::{Fact, Issue};
use iloc_ops::{NoMemory, Op, Reg};
use iloc_pieces::Piece;
use iloc_timed::Row;

/// Appends that `issue` is issued while `store` is under way until `due`.
fn push_under_way(
    text: &mut Vec<u8>,
    form: Form,
    issue: Issue,
    store: Issue,
    due: usize,
) -> Result<(), NoMemory>
    ensures { OnOk result (text.new.items ≡ text.old.items ++ fact_remark form (facts.UnderWay issue store due)) }
{
    let parts = [
        Plain("row ", "row", Number(issue.cycle as u64)),
        Quoted(": ", "operation", Operation(issue.op)),
        Plain(" while row ", "other_row", Number(store.cycle as u64)),
        Quoted(": ", "other_operation", Operation(store.op)),
        Plain(" is under way to row ", "due", Number(due as u64)),
    ];
    push_remark(text, form, "under_way", &parts)
}

/// Appends that an operation reads a register, as `read` has them, to which `late` brings its result at `due`.
fn push_brings(
    text: &mut Vec<u8>,
    form: Form,
    read: (Issue, Reg),
    late: Issue,
    due: usize,
) -> Result<(), NoMemory>
    ensures { OnOk result (text.new.items ≡ text.old.items ++ fact_remark form (facts.Brings read.0 read.1 late due)) }
{
    let parts = [
        Plain("row ", "row", Number(read.0.cycle as u64)),
        Quoted(": ", "operation", Operation(read.0.op)),
        Plain(" reads r", "register", Number(u64::from(read.1.0))),
        Plain(", which row ", "other_row", Number(late.cycle as u64)),
        Quoted(": ", "other_operation", Operation(late.op)),
        Plain(" brings in row ", "due", Number(due as u64)),
    ];
    push_remark(text, form, "brings", &parts)
}

/// Appends that an operation reads in a register, as `read` has them, the result of `from`, and no longer that of `lost`.
fn push_replaced(
    text: &mut Vec<u8>,
    form: Form,
    read: (Issue, Reg),
    from: Issue,
    lost: Option<Issue>,
) -> Result<(), NoMemory>
    ensures { OnOk result (text.new.items ≡ text.old.items ++ fact_remark form (facts.Replaced read.0 read.1 from lost)) }
{
    let parts = [
        Plain("row ", "row", Number(read.0.cycle as u64)),
        Quoted(": ", "operation", Operation(read.0.op)),
        Plain(" reads r", "register", Number(u64::from(read.1.0))),
        Plain(" of row ", "other_row", Number(from.cycle as u64)),
        Quoted(": ", "other_operation", Operation(from.op)),
        Lost(lost),
    ];
    push_remark(text, form, "replaced", &parts)
}

/// On which side of `other` `issue` is, which has to be on the other side, in words.
fn side_of(issue: Issue, other: Issue) -> &'static str
    ensures { result.now ≡ side issue other }
{
    if issue.cycle < other.cycle {
        "before"
    } else if other.cycle < issue.cycle {
        "after"
    } else {
        "not after"
    }
}

/// Appends on which side of `other` `issue` is, which has to be on the other side.
fn push_order(text: &mut Vec<u8>, form: Form, issue: Issue, other: Issue) -> Result<(), NoMemory>
    ensures { OnOk result (text.new.items ≡ text.old.items ++ fact_remark form (facts.Order issue other)) }
{
    let parts = [
        Plain("row ", "row", Number(issue.cycle as u64)),
        Quoted(": ", "operation", Operation(issue.op)),
        Quoted(" ", "side", Text(side_of(issue, other))),
        Plain(" row ", "other_row", Number(other.cycle as u64)),
        Quoted(": ", "other_operation", Operation(other.op)),
    ];
    push_remark(text, form, "order", &parts)
}

/// Appends that `issue` stands for operation `number` of the block, which is `op`.
fn push_for(
    text: &mut Vec<u8>,
    form: Form,
    issue: Issue,
    number: usize,
    op: Op,
) -> Result<(), NoMemory>
    ensures { OnOk result (text.new.items ≡ text.old.items ++ fact_remark form (facts.For issue number op)) }
{
    let parts = [
        Plain("row ", "row", Number(issue.cycle as u64)),
        Quoted(": ", "operation", Operation(issue.op)),
        Plain(" for operation ", "number", Number(number as u64)),
        Quoted(": ", "wanted", Operation(op)),
    ];
    push_remark(text, form, "for", &parts)
}

/// Appends a fact of this `kind` that says `words` of `issue`.
fn push_alone(
    text: &mut Vec<u8>,
    form: Form,
    kind: &str,
    issue: Issue,
    words: &str,
) -> Result<(), NoMemory>
    ensures { OnOk result (text.new.items ≡ text.old.items ++ alone_remark form kind.now issue words.now) }
{
    let parts = [
        Plain("row ", "row", Number(issue.cycle as u64)),
        Quoted(": ", "operation", Operation(issue.op)),
        Words(words),
    ];
    push_remark(text, form, kind, &parts)
}

/// Appends `fact`.
pub(crate) fn push_fact(text: &mut Vec<u8>, form: Form, fact: &Fact) -> Result<(), NoMemory>
    ensures { OnOk result (text.new.items ≡ text.old.items ++ fact_remark form fact.now) }
{
    match *fact {
        Fact::UnderWay { issue, store, due } => push_under_way(text, form, issue, store, due),
        Fact::Brings {
            issue,
            register,
            late,
            due,
        } => push_brings(text, form, (issue, register), late, due),
        Fact::Replaced {
            issue,
            register,
            from,
            lost,
        } => push_replaced(text, form, (issue, register), from, lost),
        Fact::NeverRead { issue } => {
            let words = ", whose result is never read";
            push_alone(text, form, "never_read", issue, words)
        }
        Fact::Order { issue, other } => push_order(text, form, issue, other),
        Fact::For { issue, number, op } => push_for(text, form, issue, number, op),
        Fact::LikeNone { issue } => {
            push_alone(text, form, "like_none", issue, " like none of the block")
        }
        Fact::See { issue } => {
            let row = Plain("see row ", "row", Number(issue.cycle as u64));
            let operation = Quoted(": ", "operation", Operation(issue.op));
            push_remark(text, form, "see", &[row, operation])
        }
    }
}

/// Appends that `row` of `rows` breaks the rules of the units, and the first rule that it breaks.
pub(crate) fn push_units(
    text: &mut Vec<u8>,
    form: Form,
    ops: &[Op],
    rows: &[Row],
    row: usize,
) -> Result<(), NoMemory>
    requires { row < length rows.now }
    ensures { OnOk result (text.new.items ≡ text.old.items ++ units_remark form ops.now rows.now row) }
{
    let number = Plain("row ", "row", Number(row as u64));
    let broken = Part::Row(": ", "text", ops, rows[row]);
    let rule = match broken_rule(ops, &rows[row]) {
        Some(rule) => Quoted(": ", "rule", Text(rule.words())),
        None => Words(""),
    };
    push_remark(text, form, "units", &[number, broken, rule])
}
