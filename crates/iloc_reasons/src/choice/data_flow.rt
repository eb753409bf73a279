//! The operations of a block or of rows, with numbers for what they compute and for who reads them.

use crate::claim::source_at;
use crate::terms::{Values, at, label_number, mix};
use iloc_facts::Sources;
use iloc_ops::{NoMemory, Op};
use iloc_timed::{Kind, Row};
use std::alloc::Global;

/// What memory and outputs fix of an operation: how many stores are before a load, a store or an output, and how many
/// outputs before an output.
#[derive(Clone, Copy, Default)]
pub(crate) struct EffectPlace {
    pub stores: usize,
    pub outputs: usize,
}

impl EffectPlace {
    /// The place of an operation of `kind` after the stores and outputs of `self`.
    fn of(self, kind: Kind) -> EffectPlace {
        match kind {
            Kind::Load | Kind::Store => EffectPlace { outputs: 0, ..self },
            Kind::Output => self,
            _ => EffectPlace::default(),
        }
    }

    /// With one more operation.
    fn with(self, kind: Kind) -> EffectPlace {
        let EffectPlace { stores, outputs } = self;
        match kind {
            Kind::Store => EffectPlace {
                stores: stores.saturating_add(1),
                outputs,
            },
            Kind::Output => EffectPlace {
                stores,
                outputs: outputs.saturating_add(1),
            },
            _ => self,
        }
    }

    /// A number for it.
    pub(crate) fn number(self) -> u64 {
        mix(self.stores as u64, self.outputs as u64)
    }
}

/// The operations of one side in their rows; a block has one in each.
#[derive(Drop)]
pub(crate) struct DataFlow<'a> {
    pub ops: &'a [Op],
    /// As they are issued.
    pub issued: Vec<usize>,
    /// By operation what it reads.
    pub sources: Vec<Sources>,
    pub places: Vec<EffectPlace>,
    pub labels: Vec<u64>,
}

/// Puts a value at a place, if there is one.
pub(crate) fn put<T: Drop + Copy>(list: &mut Vec<T>, place: usize, value: T) {
    if place < list.len() {
        list[place] = value;
    }
}

/// The places of operations in rows.
fn places(alloc: Global, ops: &[Op], rows: &[Row]) -> Result<Vec<EffectPlace>, NoMemory> {
    let mut places = vec![in alloc; EffectPlace::default(); ops.len()]?;
    let mut behind = EffectPlace::default();
    for row in rows {
        let before = behind;
        for slot in [row.zero, row.one] {
            if let Some(k) = slot
                && let Some(op) = ops.get(k)
            {
                let kind = Kind::of(op);
                put(&mut places, k, before.of(kind));
                behind = behind.with(kind);
            }
        }
    }
    Ok(places)
}

/// The operations of rows as they are issued.
fn issued(alloc: Global, rows: &[Row]) -> Result<Vec<usize>, NoMemory> {
    let mut issued = Vec::new(alloc);
    for row in rows {
        for slot in [row.zero, row.one] {
            if let Some(k) = slot {
                issued.push(k)?;
            }
        }
    }
    Ok(issued)
}

impl<'a> DataFlow<'a> {
    /// The data flow of the block `ops`, issued one by one; operation k reads `sources[k]`.
    pub(crate) fn of_block(
        alloc: Global,
        ops: &'a [Op],
        sources: &[Sources],
    ) -> Result<DataFlow<'a>, NoMemory> {
        let mut rows = Vec::with_capacity(alloc, ops.len())?;
        for i in 0..ops.len() {
            rows.push(Row {
                zero: Some(i),
                one: None,
            })?;
        }
        DataFlow::of(alloc, ops, &rows, sources)
    }

    /// The data flow of `rows`, whose operations are `ops`; operation k reads `sources[k]`.
    pub(crate) fn of(
        alloc: Global,
        ops: &'a [Op],
        rows: &[Row],
        sources: &[Sources],
    ) -> Result<DataFlow<'a>, NoMemory> {
        let mut labels = Vec::with_capacity(alloc, ops.len())?;
        for op in ops {
            labels.push(label_number(op))?;
        }
        Ok(DataFlow {
            ops,
            issued: issued(alloc, rows)?,
            sources: Vec::from_slice(alloc, sources)?,
            places: places(alloc, ops, rows)?,
            labels,
        })
    }

    /// The kind of operation k.
    pub(crate) fn kind(&self, k: usize) -> Kind {
        self.ops.get(k).map_or(Kind::Other, Kind::of)
    }

    /// What operation k reads.
    pub(crate) fn sources(&self, k: usize) -> Sources {
        self.sources.get(k).copied().unwrap_or(Sources::Nothing)
    }

    /// The place of operation k.
    pub(crate) fn place(&self, k: usize) -> EffectPlace {
        self.places.get(k).copied().unwrap_or_default()
    }

    /// By operation a number for its own of `numbers` and for all that it depends on.
    pub(crate) fn forwards(&self, alloc: Global, numbers: &[u64]) -> Result<Vec<u64>, NoMemory> {
        let mut out = vec![in alloc; 0; self.ops.len()]?;
        for k in &self.issued {
            let number = Values::of(&out, self.sources(*k)).behind(at(numbers, *k));
            put(&mut out, *k, number);
        }
        Ok(out)
    }

    /// By operation a number for its own of `numbers`, for who reads it, and at which use.
    pub(crate) fn backwards(&self, alloc: Global, numbers: &[u64]) -> Result<Vec<u64>, NoMemory> {
        let mut out = vec![in alloc; 0; self.ops.len()]?;
        let mut heard = vec![in alloc; 0; self.ops.len()]?;
        for k in self.issued.iter().rev() {
            let number = mix(at(numbers, *k), at(&heard, *k));
            put(&mut out, *k, number);
            tell(&mut heard, self.sources(*k), number);
        }
        Ok(out)
    }
}

/// Adds to `heard` of each of `sources` that the operation with `number` reads it.
fn tell(heard: &mut Vec<u64>, sources: Sources, number: u64) {
    for place in 0..2 {
        if let Some(s) = source_at(sources, place) {
            let sum = at(heard, s).wrapping_add(mix(number, place as u64 + 1));
            put(heard, s, sum);
        }
    }
}
