//! Reports as data and as tables.
use crate::short_writer::ShortWriter;
use omission_explainer::{Report, explain, write_report};
use run_data::{
    DataFault, Grouping, TableOptions, write_omissions, write_report_data, write_summary,
    write_table,
};
use slot_plans::Plan;
use std::alloc::Global;
use std::io::{ErrorKind, Write};
use step_journal::Journal;
use test_kit::{Fault, comma_numbers, number};

/// How a report is shown.
#[derive(Clone, Copy)]
enum Form {
    Text,
    Json,
    Table,
    Summary,
    Omissions,
}

/// The form of a report, and what a table shows of it.
#[derive(Drop)]
pub(crate) struct Data {
    /// How many bytes the writer takes.
    room: usize,
    form: Form,
    by: Grouping,
    places: Option<Vec<usize>>,
    changed_only: bool,
}

impl Data {
    /// Reads the words behind the source.
    pub(crate) fn of(alloc: Global, form: &str, options: &[&str]) -> Result<Data, Fault> {
        let mut data = Data {
            room: usize::MAX,
            form: form_of(form)?,
            by: Grouping::Round,
            places: None,
            changed_only: false,
        };
        let mut option = "";
        for word in options {
            option = read_word(alloc, &mut data, option, *word)?;
        }
        Ok(data)
    }

    /// Writes the report of a run, and behind what the writer took the fault if it fails.
    pub(crate) fn tell<P: Plan>(
        &self,
        alloc: Global,
        journal: &Journal<P>,
        out: &mut Vec<u8>,
    ) -> Result<(), Fault> {
        let report = explain(alloc, journal)?;
        let mut bytes = ShortWriter::new(alloc, self.room);
        let told = self.write(alloc, &report, &mut bytes);
        out.extend_from_slice(bytes.as_slice())?;
        match told {
            Ok(()) => Ok(()),
            Err(fault) if ran_out(fault) => Err(Fault::NoMemory),
            Err(fault) => Ok(writeln!(out, "refused: {fault}")?),
        }
    }

    /// Writes a report in this form.
    fn write(
        &self,
        alloc: Global,
        report: &Report,
        out: &mut ShortWriter,
    ) -> Result<(), DataFault> {
        match self.form {
            Form::Text => Ok(write_report(report, out)?),
            Form::Json => write_report_data(alloc, report, out),
            Form::Summary => write_summary(alloc, report, out),
            Form::Omissions => write_omissions(alloc, report, out),
            Form::Table => {
                let options = TableOptions {
                    by: self.by,
                    variables: match &self.places {
                        Some(places) => Some(places.as_slice()),
                        None => None,
                    },
                    changed_only: self.changed_only,
                };
                write_table(alloc, report, &options, out)
            }
        }
    }
}

/// Whether memory ran out, for the report's text or in the writer.
fn ran_out(fault: DataFault) -> bool {
    match fault {
        DataFault::NoMemory => true,
        DataFault::Write(error) => error.kind() == ErrorKind::OutOfMemory,
    }
}

fn form_of(word: &str) -> Result<Form, Fault> {
    match word {
        "text" => Ok(Form::Text),
        "json" => Ok(Form::Json),
        "table" => Ok(Form::Table),
        "summary" => Ok(Form::Summary),
        "omissions" => Ok(Form::Omissions),
        _ => Err(Fault::Unreadable),
    }
}

/// Reads a word behind an option that needs a value, or behind none; and answers the option that
/// needs the next word.
fn read_word<'a>(
    alloc: Global,
    data: &mut Data,
    option: &'a str,
    word: &'a str,
) -> Result<&'a str, Fault> {
    match option {
        "" => {
            if word != "changed" {
                return Ok(word);
            }
            data.changed_only = true;
        }
        "by" => data.by = grouping(word)?,
        "vars" => data.places = Some(places(alloc, word)?),
        "narrow" => data.room = number(word)? as usize,
        _ => return Err(Fault::Unreadable),
    }
    Ok("")
}

fn grouping(word: &str) -> Result<Grouping, Fault> {
    match word {
        "round" => Ok(Grouping::Round),
        "node" => Ok(Grouping::Node),
        _ => Err(Fault::Unreadable),
    }
}

fn places(alloc: Global, word: &str) -> Result<Vec<usize>, Fault> {
    let mut places = Vec::new(alloc);
    for place in &comma_numbers(alloc, word)? {
        places.push(*place as usize)?;
    }
    Ok(places)
}
