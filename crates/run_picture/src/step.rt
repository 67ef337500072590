//! Steps of nodes.
use crate::moment::Moment;
use run_events::{MAX_ROUNDS, Name};
use slot_plans::{Plan, Slot};
use step_book::{Book, Mark, is_name};

/// What a node does in a step.
#[derive(Clone, Copy, PartialEq, Eq, Debug)]
pub(crate) enum Work {
    Send(Name),
    /// It sends nothing in the slot of this message.
    Silence(Name),
    /// It receives; `last` if the round ends with it.
    Receive { round: u32, last: bool },
    /// All its rounds are closed.
    Idle,
}

impl Work {
    /// The round to which the step belongs, if it belongs to one.
    pub(crate) fn round(self) -> Option<u32> {
        match self {
            Work::Send(name) => Some(name.round),
            Work::Silence(name) => Some(name.round),
            Work::Receive { round, last: _ } => Some(round),
            Work::Idle => None,
        }
    }
}

/// A step that is drawn.
#[derive(Clone, Copy)]
pub(crate) struct Step {
    pub moment: Moment,
    pub work: Work,
}

/// What a node does in the step with this number, from 0.
pub(crate) fn work_at<P: Plan>(book: &Book<P>, node: u32, step: u64) -> Work {
    let plan = book.plan();
    if step >= u64::from(plan.start(MAX_ROUNDS + 1)) {
        return Work::Idle;
    }
    match plan.place(step as u32) {
        Slot::Send { round, to } => sending(
            book,
            Name {
                from: node,
                to,
                round,
                copy: 0,
            },
        ),
        Slot::Receive { round, last } => receiving(book, round, last),
    }
}

/// What a node does in the slot of a message: nothing if its round is behind the last one.
fn sending<P: Plan>(book: &Book<P>, name: Name) -> Work {
    if !is_name(book.setup(), name) {
        return Work::Idle;
    }
    match book.mark(name) {
        Mark::Silent => Work::Silence(name),
        _ => Work::Send(name),
    }
}

fn receiving<P: Plan>(book: &Book<P>, round: u32, last: bool) -> Work {
    if round > book.setup().rounds {
        return Work::Idle;
    }
    Work::Receive { round, last }
}
