//! What a call that was refused must leave as it was, and what calls answer.
ghost use Rattle.std.specs.Prelude.{◌<◌};

use super::telling::frames_of;
use slot_plans::Known;
use std::fmt::Debug;
use step_journal::Journal;
use test_kit::Fault;

/// What a journal says of a node.
#[derive(Clone, Copy, PartialEq, Eq, Debug)]
pub struct Seen {
    events: usize,
    steps: u64,
    round: u32,
    waiting: usize,
    handed: usize,
    answers: usize,
}

impl Seen {
    pub fn of(journal: &Journal<Known>, node: u32) -> Seen
        requires { node < journal.now.log.setup.nodes }
    {
        let book = journal.book();
        Seen {
            events: book.trace().len(),
            steps: book.count_of(node),
            round: book.round_of(node),
            waiting: frames_of(journal, node),
            handed: book.mail(node).receives(),
            answers: book.answers().len(),
        }
    }
}

/// What a call answered.
#[derive(Drop)]
pub enum Answer<F> {
    Done,
    /// Why it was refused, or the answer itself.
    Said(F),
    /// It was refused, and yet something isn't as it was.
    Changed,
    /// A `requires` of the call doesn't hold.
    Outside,
    NoMemory,
}

/// Writes the answer, or the word for its being done.
pub fn tell<F: Debug + Drop>(out: &mut String, answer: Answer<F>, done: &str) -> Result<(), Fault> {
    match answer {
        Answer::Done => out.push_str(done)?,
        Answer::Said(fault) => write!(out, "{fault:?}")?,
        Answer::Changed => out.push_str("CHANGED")?,
        Answer::Outside => out.push_str("not within its limits")?,
        Answer::NoMemory => out.push_str("NO MEMORY")?,
    }
    Ok(())
}
