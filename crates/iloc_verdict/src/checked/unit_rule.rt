//! Which rule of the units a row breaks.
ghost use Rattle.std.specs.Prelude.{◌≡◌, find};
ghost use Rattle.iloc_verdict.specs.UnitRule.{breaks, broken_rule, rule_words};

use iloc_ops::Op;
use iloc_timed::{Kind, Row, kind_in};

/// A rule of the units.
#[derive(Clone, Copy, PartialEq, Eq)]
pub enum UnitRule {
    /// A row has one load or store at most.
    OneMemory,
    /// A row has one product at most.
    OneProduct,
    /// A row has one output at most.
    OneOutput,
    /// Products are on unit 1.
    ProductsOnOne,
    /// Loads and stores are on unit 0.
    MemoryOnZero,
}

/// The rules, in the order in which they are named.
const UNIT_RULES: [UnitRule; 5] = [
    UnitRule::OneMemory,
    UnitRule::OneProduct,
    UnitRule::OneOutput,
    UnitRule::ProductsOnOne,
    UnitRule::MemoryOnZero,
];

impl UnitRule {
    /// Whether what is on unit 0 and on unit 1 breaks the rule.
    fn is_broken(self, zero: Option<Kind>, one: Option<Kind>) -> bool
        ensures { result ≡ breaks zero one self }
    {
        match self {
            UnitRule::OneMemory => {
                zero.is_some_and(Kind::needs_zero) && one.is_some_and(Kind::needs_zero)
            }
            UnitRule::OneProduct => {
                zero.is_some_and(Kind::needs_one) && one.is_some_and(Kind::needs_one)
            }
            UnitRule::OneOutput => {
                zero.is_some_and(Kind::stands_alone) && one.is_some_and(Kind::stands_alone)
            }
            UnitRule::ProductsOnOne => zero.is_some_and(Kind::needs_one),
            UnitRule::MemoryOnZero => one.is_some_and(Kind::needs_zero),
        }
    }

    /// What a row has that breaks the rule.
    pub(crate) fn words(self) -> &'static str
        ensures { result.now ≡ rule_words self }
    {
        match self {
            UnitRule::OneMemory => "two loads or stores",
            UnitRule::OneProduct => "two products",
            UnitRule::OneOutput => "two outputs",
            UnitRule::ProductsOnOne => "a product on unit 0",
            UnitRule::MemoryOnZero => "a load or store on unit 1",
        }
    }
}

/// The first rule that a row breaks.
pub(crate) fn broken_rule(ops: &[Op], row: &Row) -> Option<UnitRule>
    ensures { result ≡ broken_rule ops.now row.now }
{
    let (zero, one) = (kind_in(ops, row.zero), kind_in(ops, row.one));
    UNIT_RULES
        .iter()
        .copied()
        .find(|rule| rule.is_broken(zero, one))
}
