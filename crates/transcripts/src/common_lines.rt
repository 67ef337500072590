//! How many lines two lists have in common.
use std::alloc::{AllocError, Global};

/// How many pairs of lines are compared at most: the table of longer lists is empty.
const MAX_PAIRS: usize = 4_000_000;

/// For each place in two lists, the length of the longest common subsequence of the lines from
/// there on.
#[derive(Drop)]
pub(crate) struct CommonLines {
    columns: usize,
    lengths: Vec<u32>,
}

impl CommonLines {
    pub(crate) fn new(
        alloc: Global,
        one: &[&str],
        other: &[&str],
    ) -> Result<CommonLines, AllocError> {
        let columns = other.len().saturating_add(1);
        let pairs = one.len().saturating_add(1).saturating_mul(columns);
        let mut common = CommonLines {
            columns,
            lengths: Vec::new(alloc),
        };
        if pairs > MAX_PAIRS {
            return Ok(common);
        }
        common.lengths = vec![in alloc; 0u32; pairs]?;
        for (from, line) in one.iter().enumerate().rev() {
            common.compare(from, line, other);
        }
        Ok(common)
    }

    /// Fills the row of a line that is at a place of the first list, after the rows below it.
    fn compare(&mut self, from: usize, line: &str, other: &[&str]) {
        let below = from.saturating_add(1);
        for (to, printed) in other.iter().enumerate().rev() {
            let right = to.saturating_add(1);
            let length = if line == *printed {
                self.after(below, right).saturating_add(1)
            } else {
                self.after(below, to).max(self.after(from, right))
            };
            let place = self.place(from, to);
            if let Some(cell) = self.lengths.get_mut(place) {
                *cell = length;
            }
        }
    }

    /// The length from two places on; 0 where the table has no such places.
    pub(crate) fn after(&self, from: usize, to: usize) -> u32 {
        match self.lengths.get(self.place(from, to)) {
            Some(length) => *length,
            None => 0,
        }
    }

    fn place(&self, from: usize, to: usize) -> usize {
        from.saturating_mul(self.columns).saturating_add(to)
    }
}
