//! Pictures of runs.
use omission_explainer::{Report, explain};
use run_grid::{GridSheet, write_grid};
use run_picture::{PictureFault, RoundRange, View, write_picture};
use slot_plans::Plan;
use std::alloc::Global;
use std::io::Write;
use step_journal::Journal;
use test_kit::{Fault, comma_numbers, nodes, number};

/// The title of a picture, what it shows, and whether it's a grid.
#[derive(Clone, Copy)]
pub(crate) struct Picture<'a> {
    title: &'a str,
    view: View,
    is_grid: bool,
}

impl<'a> Picture<'a> {
    /// Reads the words behind the source, which is the title if they give none.
    pub(crate) fn of(
        alloc: Global,
        source: &'a str,
        options: &[&'a str],
    ) -> Result<Picture<'a>, Fault> {
        let mut picture = Picture {
            title: source,
            view: View {
                rounds: None,
                nodes: None,
                html: false,
            },
            is_grid: false,
        };
        let mut option = "";
        for word in options {
            option = read_word(alloc, &mut picture, option, *word)?;
        }
        Ok(picture)
    }

    /// Draws the run of a schedule's text.
    pub(crate) fn draw<P: Plan>(
        &self,
        alloc: Global,
        journal: &Journal<P>,
        schedule: &str,
        out: &mut Vec<u8>,
    ) -> Result<(), Fault> {
        let report = explain(alloc, journal)?;
        let book = journal.book();
        if self.is_grid {
            return self.draw_grid(alloc, &report, book.setup().rounds, out);
        }
        match write_picture(alloc, &report, book, schedule, self.title, &self.view, out) {
            Ok(()) => Ok(()),
            Err(PictureFault::TooManyEvents) => {
                writeln!(out, "refused: {}", PictureFault::TooManyEvents)?;
                Ok(())
            }
            Err(_) => Err(Fault::NoMemory),
        }
    }

    /// Draws the rounds of a run of so many rounds.
    fn draw_grid(
        &self,
        alloc: Global,
        report: &Report,
        rounds: u32,
        out: &mut Vec<u8>,
    ) -> Result<(), Fault> {
        let sheet = GridSheet {
            title: self.title,
            rounds,
            view: self.view,
            is_instead: false,
        };
        match write_grid(alloc, report, &sheet, out) {
            Ok(()) => Ok(()),
            Err(_) => Err(Fault::NoMemory),
        }
    }
}

/// Reads a word behind an option that needs a value, or behind none; and answers the option that
/// needs the next word.
fn read_word<'a>(
    alloc: Global,
    picture: &mut Picture<'a>,
    option: &'a str,
    word: &'a str,
) -> Result<&'a str, Fault> {
    match option {
        "" => {
            match word {
                "html" => picture.view.html = true,
                "grid" => picture.is_grid = true,
                _ => return Ok(word),
            }
        }
        "rounds" => picture.view.rounds = Some(rounds(word)?),
        "nodes" => picture.view.nodes = Some(nodes(&comma_numbers(alloc, word)?)),
        "title" => picture.title = word,
        _ => return Err(Fault::Unreadable),
    }
    Ok("")
}

fn rounds(text: &str) -> Result<RoundRange, Fault> {
    match text.split_once('-') {
        Some((first, last)) => Ok(RoundRange {
            first: number(first)?,
            last: number(last)?,
        }),
        None => Err(Fault::Unreadable),
    }
}
