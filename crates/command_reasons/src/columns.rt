//! Which name in the list of a table's variables is that of none.
use crate::files::CommandFiles;
use crate::located::Located;
use crate::program::program_of;
use crate::sentence::Sentence;
use command_runs::Refusal;
use command_words::{Form, Format, Words};
use round_check::Checked;
use round_lang::Span;
use std::alloc::Global;
use std::io::Write;

/// Tells the first name of `--vars` that isn't a variable's, and whether there is one.
pub(crate) fn tell_columns<O: Write>(
    alloc: Global,
    command: &Words<'_>,
    files: &CommandFiles<'_>,
    out: &mut O,
) -> Result<bool, Refusal> {
    let Some(list) = columns_of(command) else {
        return Ok(false);
    };
    let Ok(program) = program_of(alloc, command, files) else {
        return Ok(false);
    };
    match unknown_column(&program, list) {
        Some(span) => {
            let place = Located {
                name: "--vars",
                text: list,
                span,
            };
            place.tell(alloc, &Sentence::NoVariable, out)?;
            Ok(true)
        }
        None => Ok(false),
    }
}

/// Whether a name of `--vars` isn't a variable's.
pub(crate) fn has_unknown_column(
    alloc: Global,
    command: &Words<'_>,
    files: &CommandFiles<'_>,
) -> bool {
    let Some(list) = columns_of(command) else {
        return false;
    };
    match program_of(alloc, command, files) {
        Ok(program) => unknown_column(&program, list).is_some(),
        Err(_) => false,
    }
}

/// The names of a table's variables, if the command asks for a table and has such a list.
fn columns_of<'a>(command: &Words<'a>) -> Option<&'a str> {
    match command {
        Words::Run { form, .. } => table_columns(form),
        Words::Rounds { form, .. } => table_columns(form),
        _ => None,
    }
}

fn table_columns<'a>(form: &Form<'a>) -> Option<&'a str> {
    match form.format {
        Format::Table => form.variables,
        _ => None,
    }
}

/// Where the first name of the list stands that isn't a variable's.
fn unknown_column(program: &Checked, list: &str) -> Option<Span> {
    let variables = program.program().variables();
    let mut first: usize = 0;
    for name in list.split(',') {
        let after = first.saturating_add(name.len());
        if !variables
            .iter()
            .any(|variable| variable.name.as_str() == name)
        {
            return Some(Span { first, after });
        }
        first = after.saturating_add(1);
    }
    None
}
