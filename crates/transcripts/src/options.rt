//! The options of the command.
use clap::{Arg, ArgAction, ArgMatches, Command, Error};
use std::alloc::{AllocError, Global};

/// The names of the formats, the one that is used by default first.
const FORMATS: &'static [&'static str] = &["text", "json", "junit"];

/// How the results are printed.
#[derive(Clone, Copy, Debug, PartialEq, Eq)]
pub(crate) enum Format {
    /// A line for each file, and a difference for each command that differs.
    Text,
    /// An object of JSON for each command, a line each.
    Json,
    /// A report in the XML form of JUnit.
    Junit,
}

/// What is tested, and how.
#[derive(Drop)]
pub(crate) struct Options<'a> {
    /// Files and folders, one at least.
    pub names: Vec<&'a str>,
    /// Whether the transcripts get what their commands print.
    pub update: bool,
    pub format: Format,
}

impl<'a> Options<'a> {
    /// Reads the words after `test`. The error's `Display` is what the user reads, also if the
    /// words ask for help.
    pub(crate) fn read(alloc: Global, words: &'a [&'a str]) -> Result<Options<'a>, Error> {
        let matches = test_command(alloc)?.try_get_matches_from(words)?;
        Ok(Options {
            names: names_of(alloc, &matches)?,
            update: matches.get_flag("update"),
            format: format_of(&matches),
        })
    }
}

fn names_of<'a>(alloc: Global, matches: &ArgMatches<'a>) -> Result<Vec<&'a str>, AllocError> {
    match matches.get_strs("files") {
        Some(names) => Vec::from_slice(alloc, names),
        None => Ok(Vec::new(alloc)),
    }
}

fn format_of(matches: &ArgMatches<'_>) -> Format {
    match matches.get_str("format") {
        Some("json") => Format::Json,
        Some("junit") => Format::Junit,
        _ => Format::Text,
    }
}

fn test_command<'a>(alloc: Global) -> Result<Command<'a>, AllocError> {
    Command::new(alloc, "test")
        .bin_name("roundc test")?
        .about("Runs the commands of transcripts and compares what they print")
        .no_binary_name(true)
        .arg(
            Arg::new(alloc, "files")
                .value_name("FILE")
                .required(true)
                .action(ArgAction::Append)
                .help("A transcript, or a folder with transcripts whose names end with .txt"),
        )?
        .arg(
            Arg::new(alloc, "update")
                .long("update")
                .action(ArgAction::SetTrue)
                .help("Writes what the commands print into the transcripts"),
        )?
        .arg(
            Arg::new(alloc, "format")
                .long("format")
                .value_name("FORMAT")
                .value_parser(FORMATS)
                .help("How the results are printed"),
        )
}
