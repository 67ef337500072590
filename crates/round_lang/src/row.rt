//! Rows, seen by contracts as the list of their numbers.
ghost use Rattle.std.specs.Prelude.{◌≡◌, IfOk, length, slice_index};

use run_events::NoMemory;
use std::marker::Model;

/// A number for each of the K values.
#[derive(Drop, Debug)]
pub struct Row {
    entries: Vec<u32>,
}

impl Model for Row {
    ghost use Rattle.std.specs.Prelude.{List, ℕ};

    ghost Value = { List ℕ };

    ghost view = { λ r. r.entries.items };
}

impl Row {
    pub fn new(entries: Vec<u32>) -> Row
        ensures { result ≡ entries.items }
    {
        Row { entries }
    }

    /// The entry of a value, 0 from K on.
    pub fn at(&self, value: u32) -> u32
        ensures { result ≡ slice_index self.now value }
    {
        match self.entries.get(value as usize) {
            Some(entry) => *entry,
            None => 0,
        }
    }

    /// The number of entries.
    pub fn size(&self) -> usize
        ensures { result ≡ length self.now }
    {
        self.entries.len()
    }

    pub fn as_slice(&self) -> &[u32]
        ensures { result.now ≡ self.now }
    {
        self.entries.as_slice()
    }

    pub fn copy(&self) -> Result<Row, NoMemory>
        ensures { IfOk result (λ r. r ≡ self.now) }
    {
        Ok(Row {
            entries: self.entries.clone()?,
        })
    }
}

/// Equal if both have the same entries, wherever they lie.
impl PartialEq for Row {
    ghost use Rattle.round_lang.specs.Equality.{is_same, is_same_per};
    ghost use Rattle.round_lang.specs.contracts.row.Row as row;

    ghost eq = { is_same row.the_row.coded };

    ghost laws = { is_same_per row.the_row.coded };

    fn eq(&self, other: &Row) -> bool {
        self.as_slice() == other.as_slice()
    }
}

impl Eq for Row {
    ghost use Rattle.round_lang.specs.Equality.{is_same_equiv};
    ghost use Rattle.round_lang.specs.contracts.row.Row as row;

    ghost laws = { is_same_equiv row.the_row.coded };
}
