//! Operations by a constant.
ghost use Rattle.std.specs.Prelude.{◌≡◌, ◌+◌, ◌++◌, ◌∷◌, [], if◌then◌else◌, ℕ, ℤ, Bool, count_by, OnOk};
ghost use Rattle.std.specs.Ordering.{int_cmp, int_eq};
ghost use Rattle.std.specs.BTreeMap.{IsOrdered};
ghost use Rattle.std.proofs.Props.{props};

use iloc_ops::NoMemory;
use std::alloc::Global;
use std::collections::BTreeMap;

/// By constant some operations.
#[derive(Drop)]
pub(crate) struct ByConstant {
    alloc: Global,
    ops: BTreeMap<i32, Vec<u32>>,
    ghost ordered: { IsOrdered int_cmp ops } by { Prim.hlevel props },
}

impl ByConstant {
    ghost use Rattle.iloc_addresses.specs.Steps.ByConstant.{ops_at, count_in, Moves};

    /// None.
    pub(crate) fn new(alloc: Global) -> ByConstant
        ensures ops { (c : ℤ) → ops_at result c ≡ [] }
        ensures count { (test : ℕ → Bool) → count_in test result ≡ 0 }
    {
        ByConstant {
            alloc,
            ops: BTreeMap::new(alloc),
        }
    }

    /// None from now on.
    pub(crate) fn clear(&mut self)
        ensures ops { (c : ℤ) → ops_at self.new c ≡ [] }
        ensures count { (test : ℕ → Bool) → count_in test self.new ≡ 0 }
    {
        self.ops.clear();
    }

    /// Adds operation i at a constant.
    pub(crate) fn put(&mut self, constant: i32, i: u32) -> Result<(), NoMemory>
        ensures ops { OnOk result ((c : ℤ)
            → ops_at self.new c ≡ (if int_eq constant c then ops_at self.old c ++ i ∷ [] else ops_at self.old c)) }
        ensures count { OnOk result ((test : ℕ → Bool)
            → count_in test self.new ≡ count_in test self.old + (if test i then 1 else 0)) }
    {
        let mut ops = self.ops.remove(&constant).unwrap_or(Vec::new(self.alloc));
        ops.push(i)?;
        self.ops.insert(constant, ops)?;
        Ok(())
    }

    /// Moves the operations at a constant to the end of a list.
    pub(crate) fn move_at(&mut self, constant: i32, list: &mut Vec<u32>) -> Result<(), NoMemory>
        ensures list { OnOk result (list.new.items ≡ list.old.items ++ ops_at self.old constant) }
        ensures ops { OnOk result ((c : ℤ)
            → ops_at self.new c ≡ (if int_eq constant c then [] else ops_at self.old c)) }
        ensures count { OnOk result ((test : ℕ → Bool)
            → count_by test (ops_at self.old constant) + count_in test self.new ≡ count_in test self.old) }
    {
        if let Some(ops) = self.ops.remove(&constant) {
            let mut ops = ops;
            list.append(&mut ops)?;
        }
        Ok(())
    }

    /// Moves all operations to the end of a list.
    pub(crate) fn move_all(&mut self, list: &mut Vec<u32>) -> Result<(), NoMemory>
        ensures moves { OnOk result (Moves self.old self.new list.old.items list.new.items) }
        ensures ops { OnOk result ((c : ℤ) → ops_at self.new c ≡ []) }
    {
        while let Some((_, ops)) = self.ops.pop_first() {
            let mut ops = ops;
            list.append(&mut ops)?;
        }
        Ok(())
    }
}
