//! What happened in a run, event by event, as it's drawn.
use crate::columns::Columns;
use crate::crowd::End;
use crate::lane::Track;
use crate::messages::{Fate, MadeCopy, Messages, Sent};
use crate::moment::Moment;
use crate::step::{Work, work_at};
use crate::view::View;
use run_events::{Event, Name, NoMemory};
use slot_plans::Plan;
use std::alloc::Global;
use step_book::Book;

/// The steps of each node and the messages that are drawn, and the columns in which they stand.
#[derive(Drop)]
pub(crate) struct History {
    pub tracks: Vec<Track>,
    pub messages: Messages,
    pub columns: Columns,
    view: View,
    answered: usize,
}

impl History {
    /// Reads the trace of a run once.
    pub(crate) fn read<P: Plan>(
        alloc: Global,
        book: &Book<P>,
        view: &View,
    ) -> Result<History, NoMemory> {
        let nodes = book.setup().nodes;
        let mut tracks = Vec::new(alloc);
        for node in 0..nodes {
            tracks.push(Track::new(alloc, node))?;
        }
        let mut history = History {
            tracks,
            messages: Messages::new(alloc, nodes, view.first_round())?,
            columns: Columns::new(),
            view: *view,
            answered: 0,
        };
        for (place, event) in book.trace().iter().enumerate() {
            history.add(book, place, event.event())?;
        }
        Ok(history)
    }

    fn add<P: Plan>(&mut self, book: &Book<P>, place: usize, event: Event) -> Result<(), NoMemory> {
        match event {
            Event::Step(node) => return self.add_step(book, node, place),
            Event::Release(name) => self.add_release(book, name, place),
            Event::Drop(name) => self.add_drop(book, name, place),
            Event::Copy(name) => self.add_copy(book, name, place),
        }
        Ok(())
    }

    fn add_step<P: Plan>(
        &mut self,
        book: &Book<P>,
        node: u32,
        place: usize,
    ) -> Result<(), NoMemory> {
        let Some(track) = self.tracks.get(node as usize) else {
            return Ok(());
        };
        let work = work_at(book, node, track.count);
        match work {
            Work::Send(name) => self.add_send(name, place, false),
            Work::Silence(name) => self.add_send(name, place, true),
            Work::Receive { round, last: _ } => self.add_receive(book, node, round, place, work),
            Work::Idle => self.add_idle(node, place),
        }
    }

    fn add_send(&mut self, name: Name, place: usize, is_silent: bool) -> Result<(), NoMemory> {
        let is_drawn = self.view.shows_node(name.from) && self.view.shows_round(name.round);
        let moment = self.step_moment(name.from, place, is_drawn, None);
        if is_drawn {
            self.messages.add(Sent::new(name, moment, is_silent))?;
        }
        let work = if is_silent {
            Work::Silence(name)
        } else {
            Work::Send(name)
        };
        self.note_step(name.from, moment, work, is_drawn)
    }

    fn add_idle(&mut self, node: u32, place: usize) -> Result<(), NoMemory> {
        let is_drawn = self.view.shows_node(node) && self.view.rounds.is_none();
        let moment = self.step_moment(node, place, is_drawn, None);
        self.note_step(node, moment, Work::Idle, is_drawn)
    }

    fn add_receive<P: Plan>(
        &mut self,
        book: &Book<P>,
        node: u32,
        round: u32,
        place: usize,
        work: Work,
    ) -> Result<(), NoMemory> {
        let is_drawn = self.view.shows_node(node) && self.view.shows_round(round);
        let latest = self.latest_taken(book, node);
        let moment = self.step_moment(node, place, is_drawn, latest);
        self.take_all(book, node, round, moment);
        if let Some(track) = self.tracks.get_mut(node as usize) {
            track.receives = track.receives.saturating_add(1);
        }
        self.note_step(node, moment, work, is_drawn)
    }

    /// Where a step is drawn, or would be.
    fn step_moment(
        &mut self,
        node: u32,
        place: usize,
        is_drawn: bool,
        latest: Option<u32>,
    ) -> Moment {
        let at = if is_drawn {
            self.columns.step(node, latest)
        } else {
            self.columns.pass(latest)
        };
        Moment { place, at }
    }

    fn note_step(
        &mut self,
        node: u32,
        moment: Moment,
        work: Work,
        is_drawn: bool,
    ) -> Result<(), NoMemory> {
        match self.tracks.get_mut(node as usize) {
            Some(track) => track.note(moment, work, is_drawn),
            None => Ok(()),
        }
    }

    /// Where the last of the copies that the next receive of a node takes was made; `None` if none
    /// of them is drawn.
    fn latest_taken<P: Plan>(&self, book: &Book<P>, node: u32) -> Option<u32> {
        let mut latest = None;
        if node >= book.setup().nodes || !self.view.shows_node(node) {
            return latest;
        }
        let receive = self.tracks.get(node as usize)?.receives;
        for stored in book.mail(node).handed(receive) {
            if let Some(copy) = self.messages.copy(stored.name()) {
                latest = later(latest, copy.made.at);
            }
        }
        latest
    }

    /// Notes what the next receive of a node takes.
    fn take_all<P: Plan>(&mut self, book: &Book<P>, node: u32, round: u32, received: Moment) {
        if node >= book.setup().nodes || !self.view.shows_node(node) {
            return;
        }
        let Some(track) = self.tracks.get(node as usize) else {
            return;
        };
        let receive = track.receives;
        for stored in book.mail(node).handed(receive) {
            self.take(stored.name(), round, received);
        }
    }

    fn take(&mut self, name: Name, round: u32, received: Moment) {
        let Some(copy) = self.messages.copy(name) else {
            return;
        };
        if let Fate::Waiting { released, row: _ } = copy.fate {
            let fate = Fate::Received {
                released,
                received,
                round,
            };
            self.messages.note(name, MadeCopy { fate, ..copy });
        }
    }

    fn add_release<P: Plan>(&mut self, book: &Book<P>, name: Name, place: usize) {
        if self.has_effect(book) {
            let row = if self.has_received_all(book, name.to) {
                self.row(name, End::Ring)
            } else {
                0
            };
            let released = self.network_moment(place);
            self.end_flight(name, Fate::Waiting { released, row });
        }
    }

    fn add_drop<P: Plan>(&mut self, book: &Book<P>, name: Name, place: usize) {
        if self.has_effect(book) {
            let row = self.row(name, End::Cross);
            let dropped = self.network_moment(place);
            self.end_flight(name, Fate::Dropped { dropped, row });
        }
    }

    fn add_copy<P: Plan>(&mut self, book: &Book<P>, name: Name, place: usize) {
        let made = self.network_moment(place);
        if self.has_effect(book) {
            let fate = Fate::Flying;
            self.messages.note(name, MadeCopy { made, fate });
        }
    }

    /// What becomes of a copy that was in flight.
    fn end_flight(&mut self, name: Name, fate: Fate) {
        if let Some(copy) = self.messages.copy(name) {
            self.messages.note(name, MadeCopy { fate, ..copy });
        }
    }

    /// Whether a node has taken its last receive.
    fn has_received_all<P: Plan>(&self, book: &Book<P>, node: u32) -> bool {
        if node >= book.setup().nodes {
            return false;
        }
        match self.tracks.get(node as usize) {
            Some(track) => track.receives >= book.mail(node).receives(),
            None => false,
        }
    }

    /// Whether a copy is drawn.
    fn is_drawn(&self, name: Name) -> bool {
        self.view.shows_node(name.to) && self.messages.copy(name).is_some()
    }

    /// The row in which the arrow of a copy ends that no receive takes. If no row is left, a column
    /// begins, so that no end covers another.
    fn row(&mut self, name: Name, end: End) -> u32 {
        if !self.is_drawn(name) {
            return 0;
        }
        let is_above = name.from < name.to;
        let Some(track) = self.tracks.get_mut(name.to as usize) else {
            return 0;
        };
        if let Some(row) = track.crowd.row(self.columns.between(), is_above, end) {
            return row;
        }
        self.columns.begin_column();
        let row = track.crowd.row(self.columns.between(), is_above, end);
        row.unwrap_or(0)
    }

    fn network_moment(&self, place: usize) -> Moment {
        Moment {
            place,
            at: self.columns.between(),
        }
    }

    /// Whether the next event of the network let a copy go, lost it or made it.
    fn has_effect<P: Plan>(&mut self, book: &Book<P>) -> bool {
        let answer = book.answers().get(self.answered).copied();
        self.answered = self.answered.saturating_add(1);
        answer == Some(true)
    }
}

/// The later of two places.
fn later(latest: Option<u32>, at: u32) -> Option<u32> {
    match latest {
        Some(before) => Some(before.max(at)),
        None => Some(at),
    }
}
