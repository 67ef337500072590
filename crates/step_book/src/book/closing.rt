//! The end of a node's round, as a book records it.
ghost use Rattle.std.specs.Arc.{arc_value};
ghost use Rattle.std.specs.Prelude.{◌≡◌, ◌-◌, ◌<◌, ◌≤◌, ◌↔◌, IfErr, IsTrue, MatchOption, OnErr};
ghost use Rattle.std.specs.Prelude.{OnOk, Some, length, option_map};
ghost use Rattle.run_events.specs.Limits.{max_copy};
ghost use Rattle.step_book.specs.Causes.{CloseCause, IsDueIn, EndsAsRecorded};
ghost use Rattle.step_book.specs.Effects.{Closes};
ghost use Rattle.step_book.specs.Log.{IsDue, history, mark_in, round_of, state_before, world_of};
ghost use Rattle.step_book.specs.Names.{IsName};
ghost use Rattle.step_book.specs.Work.{AreCarried, any_within, heard_from, is_within, tag_of};

use crate::book::Book;
use crate::fault::CloseFault;
use crate::notes::note_close;
use crate::tags::{earliest, is_tagged, is_within};
use round_lang::Vars;
use run_events::{Name, NoMemory};
use slot_plans::Plan;
use std::sync::Arc;
use step_machine::{Finished, Sealed, StoredState};

impl<P: Plan> Book<P> {
    /// Closes the due round that a node of the run finished.
    pub fn close(&mut self, finished: &Finished<'_>) -> Result<(), CloseFault>
        requires program { finished.now.node.now.program ≡ self.old.log.program }
        requires setup { finished.now.node.now.setup ≡ self.old.log.setup }
        ensures ok { OnOk result (Closes P.start finished.now.node.now self.old self.new) }
        ensures err { OnErr result (self.new ≡ self.old) }
        ensures cause { IfErr result
            (CloseCause (P.start self.old.plan) self.old.log finished.now.node.now) }
    {
        if let Some(fault) = self.refuses_close(finished) {
            return Err(fault);
        }
        let state = finished.stored_state()?;
        self.record_close(finished, state)?;
        Ok(())
    }

    /// Why the end of a round would be refused, if it would be for another cause than memory.
    pub fn refuses_close(&self, finished: &Finished<'_>) -> Option<CloseFault>
        requires program { finished.now.node.now.program ≡ self.now.log.program }
        requires setup { finished.now.node.now.setup ≡ self.now.log.setup }
        ensures { MatchOption result
            (IsDueIn (P.start self.now.plan) self.now.log finished.now.node.now
            × EndsAsRecorded (P.start self.now.plan) self.now.log finished.now.node.now)
            (CloseCause (P.start self.now.plan) self.now.log finished.now.node.now) }
    {
        let node = finished.node();
        let round = self.round_of(node);
        if !self.is_due(node) || finished.round() != round {
            return Some(CloseFault::NotDue);
        }
        if !self.is_known(node, finished.old(), finished.frames()) {
            return Some(CloseFault::Stranger);
        }
        None
    }

    /// Closes a round that isn't refused, with the state that it ended with.
    pub fn record_close(
        &mut self,
        finished: &Finished<'_>,
        state: Arc<StoredState>,
    ) -> Result<(), NoMemory>
        requires program { finished.now.node.now.program ≡ self.old.log.program }
        requires setup { finished.now.node.now.setup ≡ self.old.log.setup }
        requires state { Some (arc_value state) ≡ finished.now.node.now.next }
        requires due { IsDueIn (P.start self.old.plan) self.old.log finished.now.node.now }
        requires ended { EndsAsRecorded (P.start self.old.plan) self.old.log finished.now.node.now }
        ensures ok { OnOk result (Closes P.start finished.now.node.now self.old self.new) }
        ensures err { OnErr result (self.new ≡ self.old) }
    {
        // Nothing at run time: what is known of the frames that the node folded.
        let _frames = finished.frames();
        let node = finished.node();
        note_close(&mut self.states[node as usize], state)?;
        Ok(())
    }

    /// Whether the state is the one before the node's due round, and the frames, by sender, are
    /// those that were carried to it.
    fn is_known(&self, node: u32, old: &Vars, frames: &[Option<Sealed>]) -> bool
        requires node { node < self.now.log.setup.nodes }
        requires due { IsDue (P.start self.now.plan) self.now.log node }
        requires sized { length frames.now ≡ self.now.log.setup.nodes }
        ensures { IsTrue result
            ↔ (state_before self.now.log node (round_of self.now.log node) ≡ old.now)
            × AreCarried (world_of (P.start self.now.plan) self.now.log) (history self.now.log) node
            (round_of self.now.log node - 1) frames.now }
    {
        let round = self.round_of(node);
        let row = &self.states[node as usize];
        if !row[round as usize - 1].same(old) {
            return false;
        }
        self.are_carried(node, frames)
    }

    fn are_carried(&self, node: u32, frames: &[Option<Sealed>]) -> bool
        requires node { node < self.now.log.setup.nodes }
        requires due { IsDue (P.start self.now.plan) self.now.log node }
        requires sized { length frames.now ≡ self.now.log.setup.nodes }
        ensures { IsTrue result ↔ AreCarried (world_of (P.start self.now.plan) self.now.log)
            (history self.now.log) node (round_of self.now.log node - 1) frames.now }
    {
        for from in 0..self.setup.nodes {
            if !self.is_carried(node, from, &frames[from as usize]) {
                return false;
            }
        }
        true
    }

    fn is_carried(&self, node: u32, from: u32, frame: &Option<Sealed>) -> bool
        requires node { node < self.now.log.setup.nodes }
        requires from { from < self.now.log.setup.nodes }
        requires due { IsDue (P.start self.now.plan) self.now.log node }
        ensures { IsTrue result ↔ (option_map tag_of frame.now
            ≡ heard_from (world_of (P.start self.now.plan) self.now.log) (history self.now.log) node
            (round_of self.now.log node - 1) from) }
    {
        let round = self.round_of(node);
        let row = &self.states[from as usize];
        let name = Name {
            from,
            to: node,
            round,
            copy: 0,
        };
        let first = self.start(earliest(round));
        if !self.was_released(name, first, self.start(round + 1)) {
            return frame.is_none();
        }
        is_tagged(frame, name, &row[round as usize - 1])
    }

    /// Whether one of a message's copies was released while its receiver's step count stood from
    /// `first` on and below `end`.
    pub fn was_released(&self, name: Name, first: u64, end: u64) -> bool
        requires { IsName self.now.log.setup name }
        ensures { result ≡ any_within (λ k.
            mark_in (P.start self.now.plan) self.now.log (record name { copy = k })) first end }
    {
        self.was_let_go(name, 0, first, end)
            || self.was_let_go(name, 1, first, end)
            || self.was_let_go(name, 2, first, end)
            || self.was_let_go(name, 3, first, end)
    }

    fn was_let_go(&self, name: Name, copy: u32, first: u64, end: u64) -> bool
        requires name { IsName self.now.log.setup name }
        requires copy { copy ≤ max_copy }
        ensures { result ≡ is_within (mark_in (P.start self.now.plan) self.now.log
            (record name { copy = copy })) first end }
    {
        is_within(self.mark(Name { copy, ..name }), first, end)
    }
}
