//! The names released to a node.
ghost use Rattle.std.specs.Prelude.{◌≡◌, ◌-◌, ◌<◌, ◌≤◌, ◌++◌, ◌∷◌, [], OnErr, OnOk, drop, length};
ghost use Rattle.std.specs.Prelude.{slice_index, slice_index_or, take};
ghost use Rattle.step_book.specs.Mailing.{mailed};
ghost use Rattle.run_events.specs.Stored.{IsStorableName};

use crate::growth::room;
use run_events::{Name, NoMemory, StoredName};
use std::alloc::Global;
use std::marker::Model;

/// The names of the messages that were released to a node, in the order of their releases: those
/// that each of its receives handed out, and then those that wait.
#[derive(Drop)]
pub struct Mailbox {
    names: Vec<StoredName>,
    ends: Vec<usize>,
    taken: usize,
}

impl Model for Mailbox {
    ghost use Rattle.step_book.specs.Mailing.{AreParted, Mailed, mailed};

    ghost Value = { Mailed };

    ghost view = { λ m. mailed m.names.items m.ends.items m.taken };

    ghost invariant = { λ m. AreParted m.names.items m.ends.items m.taken };
}

impl Mailbox {
    /// No names, and no receives; takes no memory.
    pub fn new(alloc: Global) -> Mailbox
        ensures { result ≡ mailed [] [] 0 }
    {
        Mailbox {
            names: Vec::new(alloc),
            ends: Vec::new(alloc),
            taken: 0,
        }
    }

    /// The names that wait, in the order of their releases.
    pub fn waiting(&self) -> &[StoredName]
        ensures { result.now ≡ self.now.waiting }
    {
        &self.names[self.taken..]
    }

    /// How many receives there were.
    pub fn receives(&self) -> usize
        ensures { result ≡ length self.now.handed }
    {
        self.ends.len()
    }

    /// The names that a receive handed out, counting from 0; none past the last.
    pub fn handed(&self, receive: usize) -> &[StoredName]
        ensures { result.now ≡ slice_index_or self.now.handed receive [] }
    {
        if receive >= self.ends.len() {
            return &[];
        }
        let start = start_of(&self.ends, receive);
        between(&self.names, start, self.ends[receive])
    }

    /// A name more that waits.
    #[inline(always)]
    pub fn push(&mut self, name: Name) -> Result<(), NoMemory>
        requires { IsStorableName name }
        ensures handed { OnOk result (self.new.handed ≡ self.old.handed) }
        ensures waiting { OnOk result (self.new.waiting ≡ self.old.waiting ++ name ∷ []) }
        ensures err { OnErr result (self.new ≡ self.old) }
    {
        room(&mut self.names)?;
        self.names.push_reserved(StoredName::new(name));
        Ok(())
    }

    /// A receive: what waits is handed out.
    #[inline(always)]
    pub fn hand_out(&mut self) -> Result<(), NoMemory>
        ensures handed { OnOk result (self.new.handed ≡ self.old.handed ++ self.old.waiting ∷ []) }
        ensures waiting { OnOk result (self.new.waiting ≡ []) }
        ensures err { OnErr result (self.new ≡ self.old) }
    {
        let count = self.names.len();
        room(&mut self.ends)?;
        self.ends.push_reserved(count);
        self.taken = count;
        Ok(())
    }

    /// Undoes the last receive, if there was one: what it handed out waits again, before what waits
    /// now.
    pub fn take_back(&mut self)
        ensures handed { self.new.handed ≡ take (length self.old.handed - 1) self.old.handed }
        ensures waiting { self.new.waiting
            ≡ slice_index_or self.old.handed (length self.old.handed - 1) [] ++ self.old.waiting }
    {
        let _end = self.ends.pop();
        self.taken = start_of(&self.ends, self.ends.len());
    }

    /// Forgets the names that wait.
    pub fn forget(&mut self)
        ensures handed { self.new.handed ≡ self.old.handed }
        ensures waiting { self.new.waiting ≡ [] }
    {
        self.names.truncate(self.taken);
    }
}

/// Where the names of a receive begin, or those that wait.
fn start_of(ends: &[usize], receive: usize) -> usize
    requires { receive ≤ length ends.now }
    ensures { result ≡ slice_index (0 ∷ ends.now) receive }
{
    match receive.checked_sub(1) {
        None => 0,
        Some(before) => ends[before],
    }
}

/// The names from a place up to another.
fn between(names: &[StoredName], start: usize, end: usize) -> &[StoredName]
    requires rising { start ≤ end }
    requires within { end ≤ length names.now }
    ensures { result.now ≡ take (end - start) (drop start names.now) }
{
    &names[start..end]
}
