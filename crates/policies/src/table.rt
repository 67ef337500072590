//! Tables that are read round and round.
ghost use Rattle.std.specs.Prelude.{◌≡◌, ℕ, List};
ghost use Rattle.policies.specs.Tables.{round_entry};

use std::marker::Model;

/// Numbers that are read one after the other, and from the first again after the last.
#[derive(Drop, Debug)]
pub struct Table {
    entries: Vec<u32>,
}

impl Model for Table {
    ghost Value = { List ℕ };

    ghost view = { λ t. t.entries.items };
}

impl Table {
    pub fn new(entries: Vec<u32>) -> Table
        ensures { result ≡ entries.items }
    {
        Table { entries }
    }

    pub fn as_slice(&self) -> &[u32]
        ensures { result.now ≡ self.now }
    {
        &self.entries
    }

    /// The entry for the place `k`, counted round and round; if the table is empty, `or`.
    pub fn entry(&self, k: usize, or: u32) -> u32
        ensures { result ≡ round_entry self.now k or }
    {
        let len = self.entries.len();
        if len == 0 {
            return or;
        }
        self.entries[k % len]
    }
}
