//! Operations in lines.

use super::data_flow::put;
use super::side::has;
use iloc_ops::NoMemory;
use std::alloc::Global;
use std::collections::BTreeMap;

/// How many of a line are looked at.
const LOOKS: usize = 64;

/// Operations in lines, one for each key, in order.
#[derive(Drop)]
pub(crate) struct Lines {
    first: BTreeMap<u64, usize>,
    // By operation the one behind it.
    next: Vec<Option<usize>>,
}

impl Lines {
    /// Empty lines, for `count` operations.
    pub(crate) fn new(alloc: Global, count: usize) -> Result<Lines, NoMemory> {
        Ok(Lines {
            first: BTreeMap::new(alloc),
            next: vec![in alloc; None; count]?,
        })
    }

    /// The one behind an operation.
    fn behind(&self, i: usize) -> Option<usize> {
        self.next.get(i).copied().flatten()
    }

    /// Puts an operation first.
    pub(crate) fn put_first(&mut self, key: u64, i: usize) -> Result<(), NoMemory> {
        put(&mut self.next, i, self.first.get(&key).copied());
        self.first.insert(key, i)?;
        Ok(())
    }

    /// The first operations in the line of `key`, at most `LOOKS`.
    pub(crate) fn first_few(&self, alloc: Global, key: u64) -> Result<Vec<usize>, NoMemory> {
        let mut found = Vec::new(alloc);
        let mut here = self.first.get(&key).copied();
        for _ in 0..LOOKS {
            let Some(i) = here else {
                break;
            };
            found.push(i)?;
            here = self.behind(i);
        }
        Ok(found)
    }

    /// The first operation in the line of `key` that is `free`; the ones before it leave the line.
    pub(crate) fn first_free(
        &mut self,
        key: u64,
        free: &[bool],
    ) -> Result<Option<usize>, NoMemory> {
        let Some(first) = self.first.get(&key).copied() else {
            return Ok(None);
        };
        let mut found = Some(first);
        for _ in 0..self.next.len() {
            match found {
                Some(i) if !has(free, i) => found = self.behind(i),
                _ => break,
            }
        }
        match found {
            Some(i) if i == first => {}
            Some(i) => {
                self.first.insert(key, i)?;
            }
            None => {
                self.first.remove(&key);
            }
        }
        Ok(found)
    }
}
