//! What is asked of a run.
use crate::data::Data;
use crate::picture::Picture;
use crate::reasons::{tell_idle, tell_reasons};
use slot_plans::Plan;
use std::alloc::Global;
use step_journal::Journal;
use test_kit::Fault;

/// What is told of a run.
#[derive(Drop)]
enum Told<'a> {
    Picture(Picture<'a>),
    Data(Data),
    Reasons,
    Idle,
}

/// The source whose run it is, and what is told of that.
#[derive(Drop)]
pub(crate) struct Question<'a> {
    pub source: &'a str,
    told: Told<'a>,
}

impl Question<'_> {
    /// Tells it of the run of a schedule's text.
    pub(crate) fn answer<P: Plan>(
        &self,
        alloc: Global,
        journal: &Journal<P>,
        schedule: &str,
        out: &mut Vec<u8>,
    ) -> Result<(), Fault> {
        match &self.told {
            Told::Picture(picture) => picture.draw(alloc, journal, schedule, out),
            Told::Data(data) => data.tell(alloc, journal, out),
            Told::Reasons => tell_reasons(alloc, journal.book(), out),
            Told::Idle => tell_idle(alloc, journal.book(), out),
        }
    }
}

/// Reads the words.
pub(crate) fn question_of<'a>(alloc: Global, words: &[&'a str]) -> Result<Question<'a>, Fault> {
    let [asked, source, options @ ..] = words else {
        return Err(Fault::Unreadable);
    };
    let told = match (*asked, options) {
        ("picture", options) => Told::Picture(Picture::of(alloc, *source, options)?),
        ("data", [form, options @ ..]) => Told::Data(Data::of(alloc, *form, options)?),
        ("reasons", []) => Told::Reasons,
        ("idle", []) => Told::Idle,
        _ => return Err(Fault::Unreadable),
    };
    Ok(Question {
        source: *source,
        told,
    })
}
