//! Writing a picture.
ghost use Rattle.std.specs.Prelude.{◌≡◌, ◌≢◌, ◌<◌, ◌↔◌, Err, IsTrue, None, length};
ghost use Rattle.run_picture.specs.declared.fault.PictureFault.TheVariants as fault;

use crate::drawing::Drawing;
use crate::fault::PictureFault;
use crate::heading::Heading;
use crate::rows::{ReportText, Rows};
use crate::svg::write_drawing;
use crate::svg_lanes::Words;
use crate::view::View;
use omission_explainer::Report;
use reason_texts::TextLines;
use slot_plans::Plan;
use std::alloc::Global;
use std::io::Write;
use step_book::Book;

/// The most events of a run that is drawn as a whole.
const MAX_EVENTS: usize = 400;

/// Writes a run as a space-time diagram: an SVG file, or an HTML page with the same picture.
///
/// The report is that of the book's run, and `schedule` is the text of the run's schedule, by whose
/// lines events are told. The title may be any text. Equal runs give equal pictures.
///
/// The arrows of class `heard` whose `data-message` is `J I R C`, a sender, a receiver, a round and
/// the number of a copy, are those of the nodes J that the report's row of round R and node I has
/// as heard.
pub fn write_picture<P: Plan, O: Write>(
    alloc: Global,
    report: &Report,
    book: &Book<P>,
    schedule: &str,
    title: &str,
    view: &View,
    out: &mut O,
) -> Result<(), PictureFault>
    ensures long { (result ≡ Err fault.TooManyEvents)
        ↔ ((view.now.rounds ≡ None) × (400 < length book.now.log.trace)) }
{
    if is_too_long(book, view) {
        return Err(PictureFault::TooManyEvents);
    }
    let asked = Asked {
        schedule,
        title,
        view,
    };
    asked.draw(alloc, report, book, out)
}

/// Whether a run has too many events for one picture, and the view shows all rounds.
fn is_too_long<P: Plan>(book: &Book<P>, view: &View) -> bool
    ensures { IsTrue result ↔ ((view.now.rounds ≡ None) × (400 < length book.now.log.trace)) }
{
    match view.rounds {
        None => book.trace().len() > MAX_EVENTS,
        Some(_) => false,
    }
}

/// What is asked for beside the run: the text of its schedule, a title, and what is shown.
#[derive(Clone, Copy)]
struct Asked<'a> {
    schedule: &'a str,
    title: &'a str,
    view: &'a View,
}

impl Asked<'_> {
    /// Writes a run that isn't too long.
    fn draw<P: Plan, O: Write>(
        &self,
        alloc: Global,
        report: &Report,
        book: &Book<P>,
        out: &mut O,
    ) -> Result<(), PictureFault>
        ensures { result ≢ Err fault.TooManyEvents }
    {
        let text = ReportText::new(alloc, report)?;
        self.draw_text(alloc, report, text.text(), book, out)
    }

    /// Writes the run, of whose report this is the text.
    fn draw_text<P: Plan, O: Write>(
        &self,
        alloc: Global,
        report: &Report,
        text: &str,
        book: &Book<P>,
        out: &mut O,
    ) -> Result<(), PictureFault>
        ensures { result ≢ Err fault.TooManyEvents }
    {
        match Rows::new(alloc, book.setup().nodes, report, text) {
            Ok(rows) => self.draw_rows(alloc, report, &rows, book, out),
            Err(_) => Err(PictureFault::NoMemory),
        }
    }

    /// Writes the run, of whose report these are the rows.
    fn draw_rows<P: Plan, O: Write>(
        &self,
        alloc: Global,
        report: &Report,
        rows: &Rows<'_>,
        book: &Book<P>,
        out: &mut O,
    ) -> Result<(), PictureFault>
        ensures { result ≢ Err fault.TooManyEvents }
    {
        let lines = TextLines::new(alloc, self.schedule)?;
        let drawing = Drawing::new(alloc, report, rows, book, self.view)?;
        let words = Words {
            lines: &lines,
            rows,
        };
        let view = self.view.within(book.setup().rounds);
        let heading = Heading {
            title: self.title,
            view: &view,
        };
        write_drawing(&drawing, &words, heading, out)?;
        Ok(())
    }
}
