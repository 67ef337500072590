//! The arrows of messages.
ghost use Rattle.omission_reasons.specs.Indexing.{IsIndexOf};

use crate::history::History;
use crate::messages::{Fate, MadeCopy, Sent};
use crate::moment::Moment;
use crate::rows::Rows;
use crate::view::View;
use omission_explainer::ReportRow;
use omission_reasons::{Reason, TraceIndex, reason_of};
use run_events::{MAX_COPY, MAX_ROUNDS, Name, NoMemory};
use slot_plans::Plan;
use std::alloc::Global;
use step_book::{Book, earliest, is_name, is_within};

/// What the report says of a copy of a message.
#[derive(Clone, Copy, PartialEq, Eq, Debug)]
pub(crate) enum Standing {
    /// The message is heard, and this copy was carried.
    Heard,
    /// The message is omitted, since none of its copies was carried.
    Missed(Reason),
    /// The message is heard, but not by this copy.
    Spare,
    /// Nothing yet: the round of the receiver isn't closed.
    Open,
}

/// Where an arrow ends.
#[derive(Clone, Copy, PartialEq, Eq, Debug)]
pub(crate) enum Ending {
    Taken,
    Late,
    Early,
    Dropped,
    Flying,
    Waiting,
}

/// A copy of a message, from the step that sent the message to what became of it.
#[derive(Clone, Copy)]
pub(crate) struct Arrow {
    pub name: Name,
    pub sent: Moment,
    pub copy: MadeCopy,
    pub standing: Standing,
}

impl Arrow {
    /// Where the arrow ends: by the reason why it isn't heard, if the report has one.
    pub(crate) fn ending(&self) -> Ending {
        match self.standing {
            Standing::Heard => Ending::Taken,
            Standing::Missed(reason) => ending_by(reason),
            Standing::Spare | Standing::Open => self.ending_by_fate(),
        }
    }

    fn ending_by_fate(&self) -> Ending {
        match self.copy.fate {
            Fate::Flying => Ending::Flying,
            Fate::Dropped { dropped: _, row: _ } => Ending::Dropped,
            Fate::Waiting {
                released: _,
                row: _,
            } => Ending::Waiting,
            Fate::Received {
                released: _,
                received: _,
                round,
            } => ending_in(self.name.round, round),
        }
    }
}

fn ending_by(reason: Reason) -> Ending {
    match reason {
        Reason::NotSent | Reason::InFlight => Ending::Flying,
        Reason::Dropped { .. } => Ending::Dropped,
        Reason::Waiting { .. } => Ending::Waiting,
        Reason::Late { .. } => Ending::Late,
        Reason::Early { .. } => Ending::Early,
    }
}

/// Where the arrow of a message of one round ends that was received in another.
fn ending_in(sent: u32, received: u32) -> Ending {
    if received > sent {
        Ending::Late
    } else if received < earliest(sent) {
        Ending::Early
    } else {
        Ending::Taken
    }
}

/// The run that arrows are told of.
#[derive(Clone, Copy)]
pub(crate) struct Told<'a, P: Plan> {
    pub book: &'a Book<P>,
    pub index: &'a TraceIndex,
    pub rows: &'a Rows<'a>,
}

impl<P: Plan> Told<'_, P> {
    /// The arrows of all copies that are drawn, by sender, round, receiver and copy.
    pub(crate) fn arrows(
        &self,
        alloc: Global,
        history: &History,
        view: &View,
    ) -> Result<Vec<Arrow>, NoMemory>
        requires { IsIndexOf self.now.book.now.log self.now.index.now }
    {
        let mut arrows = Vec::new(alloc);
        for track in &history.tracks {
            for sent in history.messages.of(track.node) {
                if view.shows_node(sent.name.to) {
                    self.add_copies(sent, &mut arrows)?;
                }
            }
        }
        Ok(arrows)
    }

    /// Notes of the rounds that are drawn which messages they omit since they were never sent.
    pub(crate) fn note_unsent(&self, history: &mut History, view: &View)
        requires { IsIndexOf self.now.book.now.log self.now.index.now }
    {
        for row in self.rows.all() {
            if view.shows_node(row.node) && view.shows_round(row.round) {
                self.note_unsent_to(row, history, view);
            }
        }
    }

    fn note_unsent_to(&self, row: &ReportRow, history: &mut History, view: &View)
        requires { IsIndexOf self.now.book.now.log self.now.index.now }
    {
        for from in 0..self.book.setup().nodes {
            if row.omitted.contains(from) && view.shows_node(from) {
                let name = Name {
                    from,
                    to: row.node,
                    round: row.round,
                    copy: 0,
                };
                if self.standing_of_unheard(name) == Standing::Missed(Reason::NotSent) {
                    note_unsent(history, name);
                }
            }
        }
    }

    /// Adds the copies of a message.
    fn add_copies(&self, sent: &Sent, arrows: &mut Vec<Arrow>) -> Result<(), NoMemory>
        requires { IsIndexOf self.now.book.now.log self.now.index.now }
    {
        for copy in 0..MAX_COPY + 1 {
            let name = Name { copy, ..sent.name };
            if let Some(Some(made)) = sent.copies.get(copy as usize) {
                arrows.push(Arrow {
                    name,
                    sent: sent.sent,
                    copy: *made,
                    standing: self.standing(name),
                })?;
            }
        }
        Ok(())
    }

    /// What the report says of a copy.
    fn standing(&self, name: Name) -> Standing
        requires { IsIndexOf self.now.book.now.log self.now.index.now }
    {
        let Some(row) = self.rows.of(name.to, name.round) else {
            return Standing::Open;
        };
        if row.heard.contains(name.from) {
            return self.standing_of_heard(name);
        }
        self.standing_of_unheard(name)
    }

    fn standing_of_heard(&self, name: Name) -> Standing {
        if is_carried(self.book, name) {
            Standing::Heard
        } else {
            Standing::Spare
        }
    }

    fn standing_of_unheard(&self, name: Name) -> Standing
        requires { IsIndexOf self.now.book.now.log self.now.index.now }
    {
        if !is_name(self.book.setup(), name) {
            return Standing::Spare;
        }
        match reason_of(self.book, self.index, name) {
            Some(reason) => Standing::Missed(reason),
            None => Standing::Spare,
        }
    }
}

fn note_unsent(history: &mut History, name: Name) {
    if let Some(track) = history.tracks.get_mut(name.to as usize) {
        track.note_unsent(name.round, name.from);
    }
}

/// Whether a copy was carried to the round of its message, as the report asks it of all its copies.
fn is_carried<P: Plan>(book: &Book<P>, name: Name) -> bool {
    if !is_name(book.setup(), name) {
        return false;
    }
    let first = start_of(book, earliest(name.round));
    let end = start_of(book, name.round.saturating_add(1));
    is_within(book.mark(name), first, end)
}

/// The number of the first step of a round that is one of the plan's.
fn start_of<P: Plan>(book: &Book<P>, round: u32) -> u64 {
    let round = round.max(1).min(MAX_ROUNDS + 1);
    u64::from(book.plan().start(round))
}
