//! The words that a block emits.
ghost use Rattle.std.specs.Prelude.{◌≡◌};

use std::marker::Model;

/// Emitted words, in order.
#[derive(Debug, Drop)]
pub struct Words {
    items: Vec<i32>,
}

impl Model for Words {
    ghost use Rattle.std.specs.Prelude.{List, ℤ};

    ghost Value = { List ℤ };

    ghost view = { λ words. words.items.items };
}

impl Words {
    /// Promise: the words of `items`, in their order.
    pub fn new(items: Vec<i32>) -> Words
        ensures { result ≡ items.items }
    {
        Words { items }
    }

    /// Promise: lends the words, in order.
    pub fn as_slice(&self) -> &[i32]
        ensures { result.now ≡ self.now }
    {
        self.items.as_slice()
    }

    /// Promise: gives the words back, in order.
    pub fn into_vec(self) -> Vec<i32>
        ensures { result.items ≡ self }
    {
        self.items
    }
}

impl PartialEq for Words {
    ghost use Rattle.std.proofs.Common.{rules};
    ghost use Rattle.std.specs.Ordering.{int_eq};
    ghost use Rattle.std.specs.Cmp.Lexicographic.{pointwise};
    ghost use Rattle.std.specs.Cmp.Rules.{comparing};

    ghost eq = { pointwise int_eq };

    ghost laws = { Prim.search (comparing, rules) };

    fn eq(&self, other: &Words) -> bool {
        self.items == other.items
    }
}

impl Eq for Words {
    ghost use Rattle.std.proofs.Common.{rules};
    ghost use Rattle.std.specs.Cmp.Rules.{comparing};

    ghost laws = { Prim.search (comparing, rules) };
}
