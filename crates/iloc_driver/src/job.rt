//! A block that is to be listed.
ghost use Rattle.std.proofs.Props.{props};
ghost use Rattle.std.specs.Prelude.{◌≡◌, ◌≤◌, ◌<◌, ◌^◌, length, option_copied, IfSome};
ghost use Rattle.iloc_ops.specs.Limits.{MAX_OPS};
ghost use Rattle.iloc_rules.specs.Renaming.{without_nops};

use iloc_ops::Block;

/// A block that is to be listed.
#[derive(Drop)]
pub struct Job<'a> {
    /// Its number, counted from 1.
    pub number: usize,
    /// The block, of 10,000 operations at most.
    pub block: &'a Block,
    /// Its own numbers, which rank its operations, if it has some.
    pub own: Option<&'a [u32]>,
    pub ghost few: { number < 2 ^ 63 },
    pub ghost short: { length block.now.ops ≤ MAX_OPS },
    pub ghost each: { IfSome (option_copied own) (λ numbers. length numbers ≡ length (without_nops block.now.ops)) } by { Prim.hlevel props },
}
