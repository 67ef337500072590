//! Names of messages in few bytes.
ghost use Rattle.std.specs.Prelude.{◌≡◌, ◌<◌, ◌≤◌, ◌/◌, ◌%◌, ◌++◌, OnErr, OnOk};
ghost use Rattle.run_events.specs.Limits.{max_copy, max_nodes};
ghost use Rattle.run_events.specs.Stored.{IsStorableName, name_of};

use crate::name::Name;
use crate::no_memory::NoMemory;
use std::marker::Model;

/// The name of a message of a run, which has so few nodes and rounds that this takes 4 bytes:
/// sender and receiver in one of them, and round and copy in two.
#[derive(Drop)]
pub struct StoredName {
    ends: u8,
    turn: u16,
}

impl Model for StoredName {
    ghost use Rattle.run_events.specs.declared.name.Name.{Name};
    ghost use Rattle.run_events.specs.Stored.{name_of};

    ghost Value = { Name };

    ghost view = { λ s. name_of s.ends s.turn };
}

impl StoredName {
    /// The name of a message of a run.
    #[inline(always)]
    pub fn new(name: Name) -> StoredName
        requires { IsStorableName name }
        ensures { result ≡ name }
    {
        StoredName {
            ends: ends_of(name.from, name.to),
            turn: turn_of(name.round, name.copy),
        }
    }

    /// The name.
    #[inline(always)]
    pub fn name(&self) -> Name
        ensures { result ≡ self.now }
    {
        name_in(self.ends, self.turn)
    }
}

/// A sender and a receiver in one byte.
#[inline(always)]
pub(crate) fn ends_of(from: u32, to: u32) -> u8
    requires few_from { from < max_nodes }
    requires few_to { to < max_nodes }
    ensures from { result / 16 ≡ from }
    ensures to { result % 16 ≡ to }
{
    (from * 16 + to) as u8
}

/// A round and a copy in two bytes.
#[inline(always)]
pub(crate) fn turn_of(round: u32, copy: u32) -> u16
    requires few_rounds { round < 16384 }
    requires few_copies { copy ≤ max_copy }
    ensures round { result / 4 ≡ round }
    ensures copy { result % 4 ≡ copy }
{
    (round * 4 + copy) as u16
}

/// The name that these bytes are of.
#[inline(always)]
pub(crate) fn name_in(ends: u8, turn: u16) -> Name
    ensures { result ≡ name_of ends turn }
{
    Name {
        from: u32::from(ends / 16),
        to: u32::from(ends % 16),
        round: u32::from(turn / 4),
        copy: u32::from(turn % 4),
    }
}

/// Adds the names that are stored to a list.
pub fn add_names(names: &mut Vec<Name>, stored: &[StoredName]) -> Result<(), NoMemory>
    ensures ok { OnOk result (names.new.items ≡ names.old.items ++ stored.now) }
    ensures err { OnErr result (names.new.items ≡ names.old.items) }
{
    names.reserve(stored.len())?;
    for name in stored {
        names.push_reserved(name.name());
    }
    Ok(())
}
