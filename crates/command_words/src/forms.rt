//! In which form a report or another answer is printed.
ghost use Rattle.std.specs.Prelude.{IfErr, IfOk, codes};
ghost use Rattle.clap.specs.Words.{found_of, rows_of};
ghost use Rattle.command_words.specs.Exploring.{GivesOr};
ghost use Rattle.command_words.specs.Given.{FailsByForm, FailsByFormat, GivesForm, GivesFormat};
ghost use Rattle.command_words.specs.Values.{BlocksText, FormatText};
ghost use Rattle.command_words.specs.declared.forms.Blocks.TheVariants as blocks;
ghost use Rattle.command_words.specs.declared.forms.Format.TheVariants as format;

use crate::words::{WordsFault, has_flag, is_decided, optional_text};
use clap::ArgMatches;

/// What a report is printed as.
#[derive(Clone, Copy, Debug, PartialEq, Eq)]
pub enum Format {
    /// Lines of text, one for each row and one for each node.
    Text,
    /// The same as JSON, an object a line.
    Json,
    /// Columns under a head line.
    Table,
    /// A line for each node, and what each round lost.
    Summary,
    /// The omitted messages, as the lines of an omission file.
    Omissions,
}

/// What an answer that is no report is printed as.
#[derive(Clone, Copy, Debug, PartialEq, Eq)]
pub enum AnswerFormat {
    /// Lines of text.
    Text,
    /// The same as JSON, an object a line.
    Json,
}

/// What the rows of a block of a table have in common.
#[derive(Clone, Copy, Debug, PartialEq, Eq)]
pub enum Blocks {
    Rounds,
    Nodes,
}

/// In which form a report is printed.
#[derive(Clone, Copy, Debug, PartialEq, Eq)]
pub struct Form<'a> {
    pub format: Format,
    /// The blocks of a table; nothing else has blocks.
    pub blocks: Blocks,
    /// The names of the variables that a table has, with commas between them; a table has all if
    /// it's left out.
    pub variables: Option<&'a str>,
    /// Whether a table has only the rows whose state or decision isn't that of the node's row
    /// before.
    pub changed: bool,
    /// Whether a last line says what all decisions come to.
    pub decided: bool,
}

/// The value of an answer's FORMAT, which is `text` if it's left out.
pub(crate) fn answer_format_of(matches: &ArgMatches<'_>) -> Result<AnswerFormat, WordsFault>
    ensures ok { IfOk result (GivesFormat (rows_of (found_of matches.now))) }
    ensures err { IfErr result (FailsByFormat (rows_of (found_of matches.now))) }
{
    match optional_text(matches, "format") {
        None => Ok(AnswerFormat::Text),
        Some("text") => Ok(AnswerFormat::Text),
        Some("json") => Ok(AnswerFormat::Json),
        Some(_) => Err(WordsFault::AnswerFormat),
    }
}

/// The value of a report's FORMAT, which is `text` if it's left out.
fn format_of(matches: &ArgMatches<'_>) -> Result<Format, WordsFault>
    ensures ok { IfOk result (GivesOr format.Text (codes "format") FormatText
        (rows_of (found_of matches.now))) }
    ensures err { IfErr result (FailsByForm (rows_of (found_of matches.now))) }
{
    match optional_text(matches, "format") {
        None => Ok(Format::Text),
        Some("text") => Ok(Format::Text),
        Some("json") => Ok(Format::Json),
        Some("table") => Ok(Format::Table),
        Some("summary") => Ok(Format::Summary),
        Some("omissions") => Ok(Format::Omissions),
        Some(_) => Err(WordsFault::Format),
    }
}

/// The value of BY, which is `round` if it's left out.
fn blocks_of(matches: &ArgMatches<'_>) -> Result<Blocks, WordsFault>
    ensures ok { IfOk result (GivesOr blocks.Rounds (codes "by") BlocksText
        (rows_of (found_of matches.now))) }
    ensures err { IfErr result (FailsByForm (rows_of (found_of matches.now))) }
{
    match optional_text(matches, "by") {
        None => Ok(Blocks::Rounds),
        Some("round") => Ok(Blocks::Rounds),
        Some("node") => Ok(Blocks::Nodes),
        Some(_) => Err(WordsFault::Blocks),
    }
}

/// What the options of a report say.
pub(crate) fn form_of<'a>(matches: &ArgMatches<'a>) -> Result<Form<'a>, WordsFault>
    ensures ok { IfOk result (GivesForm (rows_of (found_of matches.now))) }
    ensures err { IfErr result (FailsByForm (rows_of (found_of matches.now))) }
{
    Ok(Form {
        format: format_of(matches)?,
        blocks: blocks_of(matches)?,
        variables: optional_text(matches, "vars"),
        changed: has_flag(matches, "changed"),
        decided: is_decided(matches),
    })
}
