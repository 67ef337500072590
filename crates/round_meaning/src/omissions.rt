//! Omission tables.
ghost use Rattle.std.specs.Prelude.{◌≡◌, ◌∷◌, [], OnErr, OnOk};

use run_events::NoMemory;
use std::alloc::Global;
use std::collections::BTreeSet;
use std::marker::Model;

/// The message of a round from the sender is none of those that the receiver gets.
#[derive(Clone, Copy, PartialEq, Eq, PartialOrd, Ord, Debug)]
pub struct Omission {
    pub receiver: u32,
    pub round: u32,
    pub sender: u32,
}

/// Which messages a run omits. A look-up takes logarithmic time.
#[derive(Drop)]
pub struct OmissionTable {
    omissions: BTreeSet<Omission>,
}

impl Model for OmissionTable {
    ghost use Rattle.std.specs.Prelude.{List};
    ghost use Rattle.round_meaning.specs.declared.omissions.Omission.{Omission as OneOmission};

    ghost Value = { List OneOmission };

    ghost view = { λ t. t.omissions.keys };
}

impl OmissionTable {
    ghost use Rattle.round_meaning.specs.Omissions.{AddsOmission, is_omitted};

    /// Nothing is omitted yet; takes no memory.
    pub fn new(alloc: Global) -> OmissionTable
        ensures { result ≡ [] }
    {
        OmissionTable {
            omissions: BTreeSet::new(alloc),
        }
    }

    /// Omits one message more.
    pub fn insert(&mut self, receiver: u32, round: u32, sender: u32) -> Result<(), NoMemory>
        ensures ok { OnOk result (AddsOmission self.old self.new
            (record { receiver = receiver; round = round; sender = sender })) }
        ensures err { OnErr result (self.new ≡ self.old) }
    {
        self.omissions.insert(Omission {
            receiver,
            round,
            sender,
        })?;
        Ok(())
    }

    pub fn is_omitted(&self, receiver: u32, round: u32, sender: u32) -> bool
        ensures { result ≡ is_omitted self.now receiver round sender }
    {
        self.omissions.contains(&Omission {
            receiver,
            round,
            sender,
        })
    }
}
