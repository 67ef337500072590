//! What the words say.
ghost use Rattle.std.specs.Prelude.{◌≡◌, ◌≢◌, ◌⊎◌, ◌↔◌, [], IfErr, IfOk, IsTrue, OnErr, OnOk};
ghost use Rattle.std.specs.Prelude.{codes, map, option_map};
ghost use Rattle.clap.specs.Words.{fault_of, first_of, found_of, kind_of, rows_of};
ghost use Rattle.command_words.specs.Commands.{roundc_app};
ghost use Rattle.command_words.specs.Given.{Explains, FailsByCheck, FailsByDelta, FailsByDraw};
ghost use Rattle.command_words.specs.Given.{FailsByExplore, FailsByFile, FailsByGst};
ghost use Rattle.command_words.specs.Given.{FailsByJudge, FailsByList, FailsByLockstep};
ghost use Rattle.command_words.specs.Given.{FailsByOmissions, FailsByReport, FailsByRounds};
ghost use Rattle.command_words.specs.Given.{FailsBySource, FailsByTable, FailsByThreads};
ghost use Rattle.command_words.specs.Given.{FailsByFiles, FailsByTicks, GivesFiles};
ghost use Rattle.command_words.specs.Given.{FailsByValue, Gives, GivesDelta, GivesGst, GivesList};
ghost use Rattle.command_words.specs.Exploring.{HasFlag};
ghost use Rattle.command_words.specs.Given.{GivesSource, GivesTable, GivesTicks};
ghost use Rattle.command_words.specs.Given.{IsDecidedAsked, IsMistake, Means};
ghost use Rattle.command_words.specs.Given.{begins_negative, has_negative, has_negative_list};
ghost use Rattle.command_words.specs.Values.{is_negative};
ghost use Rattle.command_words.specs.declared.words.WordsFault.TheVariants.{NoMemory};

use crate::changes::{Changes, changes_of};
use crate::commands::roundc_command;
use crate::drawing::{Drawing, drawing_of};
use crate::exploring::{Exploring, exploring_of};
use crate::forms::{AnswerFormat, Form, answer_format_of, form_of};
use crate::inputs::check_inputs;
use crate::negative::{has_negative, has_negative_change, has_negative_list};
use crate::values::{Source, read_list, read_number, read_source};
use clap::ArgMatches;
use clap::error::ErrorKind;
use run_events::MAX_DELTA;
use std::alloc::{AllocError, AllocFailed, Global};
use std::fmt;

/// A command with its values.
#[derive(Debug, Drop, PartialEq, Eq)]
pub enum Words<'a> {
    /// `check SOURCE [--format FORMAT]`.
    Check {
        source: Source<'a>,
        format: AnswerFormat,
    },
    /// `show SOURCE`.
    Show {
        source: Source<'a>,
    },
    /// `run SOURCE --schedule FILE [--decided] [--format FORMAT] [--by BY] [--vars LIST]
    /// [--changed]`; `schedule` is FILE as it was written, `-` included.
    Run {
        source: Source<'a>,
        schedule: &'a str,
        form: Form<'a>,
    },
    /// `draw SOURCE --schedule FILE [--rounds RANGE] [--nodes LIST] [--grid] [--html]`; `schedule`
    /// is as in `Run`.
    Draw {
        source: Source<'a>,
        schedule: &'a str,
        drawing: Drawing,
    },
    /// `threads SOURCE --setup FILE --trace FILE [--decided]`; `setup` and `trace` are each FILE as
    /// it was written, `-` included.
    Threads {
        source: Source<'a>,
        setup: &'a str,
        trace: &'a str,
        decided: bool,
    },
    /// `judge SOURCE --schedule FILE --correct LIST --delta D --gst G [--format FORMAT]`; `correct`
    /// has the numbers of LIST in their order, also those that are there twice.
    Judge {
        source: Source<'a>,
        schedule: &'a str,
        correct: Vec<u32>,
        delta: u32,
        gst: u32,
        format: AnswerFormat,
    },
    /// `lockstep SOURCE --header FILE --correct LIST --delta D --gst G [--delays LIST]
    /// [--orders LIST] [--ticks T] [--stop I C].. [--omissions FILE] [--delay J I R W]..`; a LIST
    /// that is left out is empty.
    Lockstep {
        source: Source<'a>,
        header: &'a str,
        correct: Vec<u32>,
        delta: u32,
        gst: u32,
        delays: Vec<u32>,
        orders: Vec<u32>,
        ticks: Option<u32>,
        changes: Changes<'a>,
    },
    /// `realise SOURCE --header FILE --omissions FILE`; `header` and `omissions` are each FILE as
    /// it was written, `-` included.
    Realise {
        source: Source<'a>,
        header: &'a str,
        omissions: &'a str,
    },
    /// `rounds SOURCE --header FILE --omissions FILE [--decided] [--format FORMAT] [--by BY]
    /// [--vars LIST] [--changed]`; `header` and `omissions` are as in `Realise`.
    Rounds {
        source: Source<'a>,
        header: &'a str,
        omissions: &'a str,
        form: Form<'a>,
    },
    /// `explore SOURCE --header FILE [--inputs INPUTS] [--faults FAULTS] [--clear C] [--hears M]
    /// [--part I/N] [--jobs J] [--sample COUNT] [--seed S] [--check LIST] [--always EXPR]
    /// [--trace FILE] [--format FORMAT] [--brief]`; `header` is FILE as it was written, `-`
    /// included.
    Explore {
        source: Source<'a>,
        header: &'a str,
        exploring: Exploring<'a>,
        format: AnswerFormat,
    },
    /// `together FILE..`; `files` has each FILE as it was written, `-` included, in their order,
    /// and one at least.
    Together {
        files: Vec<&'a str>,
    },
}

/// Why the words give no command.
#[derive(Debug, Drop)]
pub enum WordsFault {
    /// A mistake in the words, or a call for help or the version. The error's `Display` is what
    /// the user reads.
    Refused(clap::Error),
    /// A command without one of its values. `clap` refuses such words itself, so none are known
    /// that give this; its contract leaves it open for a command below the top one.
    Missing,
    /// A SOURCE that begins with `@` and doesn't go on as a name, `:` and digits.
    Source,
    /// A LIST that isn't one or more numbers of 32 bits with commas between them, also one that
    /// begins with a number below 0.
    List,
    /// A D that isn't a number of 1 to 1,024, also one below 0.
    Delta,
    /// A G that isn't a number of 32 bits, also one below 0.
    Gst,
    /// A T that isn't a number of 32 bits, also one below 0.
    Ticks,
    /// Values of `--stop` or `--delay` that aren't all numbers of 32 bits, also one below 0.
    Change,
    /// INPUTS that aren't `header` or `any`.
    Inputs,
    /// FAULTS that aren't `none`, `omission` or `crash`.
    Faults,
    /// A C that isn't a number of 1 to the largest of 32 bits, also one below 0.
    Clear,
    /// An M that isn't a number of 32 bits, also one below 0.
    Hears,
    /// A LIST of `--check` that isn't one or more names of properties with commas between them.
    Checks,
    /// An I/N that isn't two numbers with 1 <= I <= N <= 65,536, or that is there without
    /// `--inputs any` or with `--sample`.
    Part,
    /// A J that isn't a number of 1 to 256, also one below 0, or that is there with `--sample`.
    Jobs,
    /// A COUNT that isn't a number of 1 to the largest of 32 bits, also one below 0.
    Sample,
    /// An S that isn't a number of 32 bits, also one below 0, or that is there without `--sample`.
    Seed,
    /// A RANGE that isn't two numbers of 1 to the largest of 32 bits with `-` between them, or
    /// whose first is larger than its last; also one that begins with a number below 0.
    Range,
    /// A report's FORMAT that isn't `text`, `json`, `table`, `summary` or `omissions`.
    Format,
    /// An answer's FORMAT that isn't `text` or `json`.
    AnswerFormat,
    /// A BY that isn't `round` or `node`.
    Blocks,
    /// Standard input as the file of the header and as that of the omissions.
    InputTwice,
    /// Memory ran out. Nothing is known of the words.
    NoMemory,
}

/// One line, which ends with a line break as `clap`'s own text does.
impl fmt::Display for WordsFault {
    ghost use Rattle.command_words.specs.Lines.{words_line};

    ghost output = { words_line };

    fn fmt<W: fmt::Write>(&self, f: &mut fmt::Formatter<W>) -> fmt::Result {
        match self {
            WordsFault::Refused(error) => write!(f, "{error}"),
            WordsFault::Missing => writeln!(f, "error: a value is missing"),
            WordsFault::Source => {
                writeln!(f, "error: SOURCE is a file, or `@`, a name, `:` and digits")
            }
            WordsFault::List => {
                writeln!(
                    f,
                    "error: LIST is numbers of 0 to 4294967295 with commas between them"
                )
            }
            WordsFault::Delta => writeln!(f, "error: `--delta` is a number of 1 to 1024"),
            WordsFault::Gst => writeln!(f, "error: `--gst` is a number of 0 to 4294967295"),
            WordsFault::Ticks => writeln!(f, "error: `--ticks` is a number of 0 to 4294967295"),
            WordsFault::Change => {
                writeln!(
                    f,
                    "error: `--stop` and `--delay` have numbers of 0 to 4294967295"
                )
            }
            WordsFault::Inputs => writeln!(f, "error: `--inputs` is `header` or `any`"),
            WordsFault::Faults => {
                writeln!(f, "error: `--faults` is `none`, `omission` or `crash`")
            }
            WordsFault::Clear => writeln!(f, "error: `--clear` is a number of 1 to 4294967295"),
            WordsFault::Hears => writeln!(f, "error: `--hears` is a number of 0 to 4294967295"),
            WordsFault::Checks => {
                writeln!(
                    f,
                    "error: `--check` is `agreement`, `validity`, `final` or `termination` with \
                     commas between them"
                )
            }
            WordsFault::Part => {
                writeln!(
                    f,
                    "error: `--part` is I/N with 1 <= I <= N <= 65536; it goes with \
                     `--inputs any`, and not with `--sample`"
                )
            }
            WordsFault::Jobs => {
                writeln!(
                    f,
                    "error: `--jobs` is a number of 1 to 256, and doesn't go with `--sample`"
                )
            }
            WordsFault::Sample => writeln!(f, "error: `--sample` is a number of 1 to 4294967295"),
            WordsFault::Seed => {
                writeln!(
                    f,
                    "error: `--seed` is a number of 0 to 4294967295, and goes with `--sample`"
                )
            }
            WordsFault::Range => {
                writeln!(
                    f,
                    "error: `--rounds` is A-B, two numbers of 1 to 4294967295 with A <= B"
                )
            }
            WordsFault::Format => {
                writeln!(
                    f,
                    "error: `--format` is `text`, `json`, `table`, `summary` or `omissions`"
                )
            }
            WordsFault::AnswerFormat => writeln!(f, "error: `--format` is `text` or `json`"),
            WordsFault::Blocks => writeln!(f, "error: `--by` is `round` or `node`"),
            WordsFault::InputTwice => {
                writeln!(
                    f,
                    "error: only one of `--header` and `--omissions` can be `-`, standard input"
                )
            }
            WordsFault::NoMemory => writeln!(f, "no memory"),
        }
    }
}

impl<T: Drop> From<AllocFailed<T>> for WordsFault {
    ghost from_gives = { λ _ e. e ≡ NoMemory };

    fn from(_error: AllocFailed<T>) -> WordsFault {
        WordsFault::NoMemory
    }
}

impl From<AllocError> for WordsFault {
    ghost from_gives = { λ _ e. e ≡ NoMemory };

    fn from(_error: AllocError) -> WordsFault {
        WordsFault::NoMemory
    }
}

/// The program's own word for an error of `clap`, which takes a number below 0 for an option.
fn refusal(error: clap::Error, words: &[&str]) -> WordsFault
    ensures { IsMistake (map (λ s. s.now) words.now) error result }
{
    match error.kind() {
        ErrorKind::OutOfMemory => WordsFault::NoMemory,
        ErrorKind::DisplayHelp | ErrorKind::DisplayVersion => WordsFault::Refused(error),
        _ if has_negative_list(words) => WordsFault::List,
        _ if has_negative("--delta", words) => WordsFault::Delta,
        _ if has_negative("--gst", words) => WordsFault::Gst,
        _ if has_negative("--ticks", words) => WordsFault::Ticks,
        _ if has_negative("--clear", words) => WordsFault::Clear,
        _ if has_negative("--hears", words) => WordsFault::Hears,
        _ if has_negative("--part", words) => WordsFault::Part,
        _ if has_negative("--jobs", words) => WordsFault::Jobs,
        _ if has_negative("--sample", words) => WordsFault::Sample,
        _ if has_negative("--seed", words) => WordsFault::Seed,
        _ if has_negative("--rounds", words) => WordsFault::Range,
        _ if has_negative_change(words) => WordsFault::Change,
        _ => WordsFault::Refused(error),
    }
}

/// The value of a required argument.
fn text_of<'a>(matches: &ArgMatches<'a>, id: &str) -> Result<&'a str, WordsFault>
    ensures ok { IfOk result (λ t. first_of id.now (rows_of (found_of matches.now)) ≡ Some t.now) }
    ensures missing { IfErr result (λ e. e ≡ WordsFault.Missing) }
    ensures err { OnErr result (first_of id.now (rows_of (found_of matches.now)) ≡ None) }
{
    matches.get_str(id).ok_or(WordsFault::Missing)
}

/// The FILE of the header.
fn header_of<'a>(matches: &ArgMatches<'a>) -> Result<&'a str, WordsFault>
    ensures ok { IfOk result (λ t.
        first_of (codes "header") (rows_of (found_of matches.now)) ≡ Some t.now) }
    ensures err { IfErr result (FailsByFile (codes "header") (rows_of (found_of matches.now))) }
{
    text_of(matches, "header")
}

/// The FILE of the omissions.
fn omissions_of<'a>(matches: &ArgMatches<'a>) -> Result<&'a str, WordsFault>
    ensures ok { IfOk result (λ t.
        first_of (codes "omissions") (rows_of (found_of matches.now)) ≡ Some t.now) }
    ensures err { IfErr result (FailsByFile (codes "omissions") (rows_of (found_of matches.now))) }
{
    text_of(matches, "omissions")
}

/// The value of an argument that may be left out.
pub(crate) fn optional_text<'a>(matches: &ArgMatches<'a>, id: &str) -> Option<&'a str>
    ensures { first_of id.now (rows_of (found_of matches.now)) ≡ option_map (λ t. t.now) result }
{
    matches.get_str(id)
}

/// The value of SOURCE, in its two forms.
fn source_of<'a>(matches: &ArgMatches<'a>) -> Result<Source<'a>, WordsFault>
    ensures ok { IfOk result (GivesSource (rows_of (found_of matches.now))) }
    ensures err { IfErr result (FailsBySource (rows_of (found_of matches.now))) }
{
    let text = text_of(matches, "source")?;
    read_source(text).ok_or(WordsFault::Source)
}

/// The value of LIST.
fn correct_of(alloc: Global, matches: &ArgMatches<'_>) -> Result<Vec<u32>, WordsFault>
    ensures ok { IfOk result (λ list.
        GivesList (codes "correct") (rows_of (found_of matches.now)) list.items) }
    ensures err { IfErr result (FailsByList (codes "correct") (rows_of (found_of matches.now))) }
{
    let text = text_of(matches, "correct")?;
    read_list(alloc, text)
}

/// The value of a LIST that may be left out.
pub(crate) fn table_of(
    alloc: Global,
    matches: &ArgMatches<'_>,
    id: &str,
) -> Result<Vec<u32>, WordsFault>
    ensures ok { IfOk result (λ list.
        GivesTable id.now (rows_of (found_of matches.now)) list.items) }
    ensures err { IfErr result (FailsByTable id.now (rows_of (found_of matches.now))) }
{
    match optional_text(matches, id) {
        Some(text) => read_list(alloc, text),
        None => Ok(Vec::new(alloc)),
    }
}

/// The value of T, if it isn't left out.
fn ticks_of(matches: &ArgMatches<'_>) -> Result<Option<u32>, WordsFault>
    ensures ok { IfOk result (GivesTicks (rows_of (found_of matches.now))) }
    ensures err { IfErr result (FailsByTicks (rows_of (found_of matches.now))) }
{
    match optional_text(matches, "ticks") {
        None => Ok(None),
        Some(text) => match read_number(text) {
            Some(ticks) => Ok(Some(ticks)),
            None => Err(WordsFault::Ticks),
        },
    }
}

/// Whether the flag of a name stands there.
pub(crate) fn has_flag(matches: &ArgMatches<'_>, id: &str) -> bool
    ensures { IsTrue result ↔ HasFlag id.now (rows_of (found_of matches.now)) }
{
    match matches.get_str(id) {
        Some(text) => text == "true",
        None => false,
    }
}

/// Whether `--decided` stands there.
pub(crate) fn is_decided(matches: &ArgMatches<'_>) -> bool
    ensures { IsTrue result ↔ IsDecidedAsked (rows_of (found_of matches.now)) }
{
    has_flag(matches, "decided")
}

/// The value of D.
fn delta_of(matches: &ArgMatches<'_>) -> Result<u32, WordsFault>
    ensures ok { IfOk result (GivesDelta (rows_of (found_of matches.now))) }
    ensures err { IfErr result (FailsByDelta (rows_of (found_of matches.now))) }
{
    let text = text_of(matches, "delta")?;
    match read_number(text) {
        Some(delta) if 1 <= delta && delta <= MAX_DELTA => Ok(delta),
        _ => Err(WordsFault::Delta),
    }
}

/// The value of G.
fn gst_of(matches: &ArgMatches<'_>) -> Result<u32, WordsFault>
    ensures ok { IfOk result (GivesGst (rows_of (found_of matches.now))) }
    ensures err { IfErr result (FailsByGst (rows_of (found_of matches.now))) }
{
    let text = text_of(matches, "gst")?;
    read_number(text).ok_or(WordsFault::Gst)
}

/// The values of the command `check`.
fn check_of<'a>(matches: &ArgMatches<'a>) -> Result<Words<'a>, WordsFault>
    ensures ok { IfOk result (Gives (codes "check") (rows_of (found_of matches.now))) }
    ensures err { IfErr result (FailsByCheck (rows_of (found_of matches.now))) }
{
    Ok(Words::Check {
        source: source_of(matches)?,
        format: answer_format_of(matches)?,
    })
}

/// The values of the command `run`.
fn run_of<'a>(matches: &ArgMatches<'a>) -> Result<Words<'a>, WordsFault>
    ensures ok { IfOk result (Gives (codes "run") (rows_of (found_of matches.now))) }
    ensures err { IfErr result (FailsByReport (rows_of (found_of matches.now))) }
{
    Ok(Words::Run {
        source: source_of(matches)?,
        schedule: text_of(matches, "schedule")?,
        form: form_of(matches)?,
    })
}

/// The values of the command `draw`.
fn draw_of<'a>(alloc: Global, matches: &ArgMatches<'a>) -> Result<Words<'a>, WordsFault>
    ensures ok { IfOk result (Gives (codes "draw") (rows_of (found_of matches.now))) }
    ensures err { IfErr result (FailsByDraw (rows_of (found_of matches.now))) }
{
    Ok(Words::Draw {
        source: source_of(matches)?,
        schedule: text_of(matches, "schedule")?,
        drawing: drawing_of(alloc, matches)?,
    })
}

/// The values of the command `threads`.
fn threads_of<'a>(matches: &ArgMatches<'a>) -> Result<Words<'a>, WordsFault>
    ensures ok { IfOk result (Gives (codes "threads") (rows_of (found_of matches.now))) }
    ensures err { IfErr result (FailsByThreads (rows_of (found_of matches.now))) }
{
    Ok(Words::Threads {
        source: source_of(matches)?,
        setup: text_of(matches, "setup")?,
        trace: text_of(matches, "trace")?,
        decided: is_decided(matches),
    })
}

/// The values of the command `judge`.
fn judge_of<'a>(alloc: Global, matches: &ArgMatches<'a>) -> Result<Words<'a>, WordsFault>
    ensures ok { IfOk result (Gives (codes "judge") (rows_of (found_of matches.now))) }
    ensures err { IfErr result (FailsByJudge (rows_of (found_of matches.now))) }
{
    Ok(Words::Judge {
        source: source_of(matches)?,
        schedule: text_of(matches, "schedule")?,
        correct: correct_of(alloc, matches)?,
        delta: delta_of(matches)?,
        gst: gst_of(matches)?,
        format: answer_format_of(matches)?,
    })
}

/// The values of the command `lockstep`.
fn lockstep_of<'a>(alloc: Global, matches: &ArgMatches<'a>) -> Result<Words<'a>, WordsFault>
    ensures ok { IfOk result (Gives (codes "lockstep") (rows_of (found_of matches.now))) }
    ensures err { IfErr result (FailsByLockstep (rows_of (found_of matches.now))) }
{
    check_inputs(matches)?;
    Ok(Words::Lockstep {
        source: source_of(matches)?,
        header: header_of(matches)?,
        correct: correct_of(alloc, matches)?,
        delta: delta_of(matches)?,
        gst: gst_of(matches)?,
        delays: table_of(alloc, matches, "delays")?,
        orders: table_of(alloc, matches, "orders")?,
        ticks: ticks_of(matches)?,
        changes: changes_of(alloc, matches)?,
    })
}

/// The values of the command `realise`.
fn realise_of<'a>(matches: &ArgMatches<'a>) -> Result<Words<'a>, WordsFault>
    ensures ok { IfOk result (Gives (codes "realise") (rows_of (found_of matches.now))) }
    ensures err { IfErr result (FailsByOmissions (rows_of (found_of matches.now))) }
{
    check_inputs(matches)?;
    Ok(Words::Realise {
        source: source_of(matches)?,
        header: header_of(matches)?,
        omissions: omissions_of(matches)?,
    })
}

/// The values of the command `rounds`.
fn rounds_of<'a>(matches: &ArgMatches<'a>) -> Result<Words<'a>, WordsFault>
    ensures ok { IfOk result (Gives (codes "rounds") (rows_of (found_of matches.now))) }
    ensures err { IfErr result (FailsByRounds (rows_of (found_of matches.now))) }
{
    check_inputs(matches)?;
    Ok(Words::Rounds {
        source: source_of(matches)?,
        header: header_of(matches)?,
        omissions: omissions_of(matches)?,
        form: form_of(matches)?,
    })
}

/// The values of the command `explore`.
fn explore_of<'a>(matches: &ArgMatches<'a>) -> Result<Words<'a>, WordsFault>
    ensures ok { IfOk result (Gives (codes "explore") (rows_of (found_of matches.now))) }
    ensures err { IfErr result (FailsByExplore (rows_of (found_of matches.now))) }
{
    Ok(Words::Explore {
        source: source_of(matches)?,
        header: header_of(matches)?,
        exploring: exploring_of(matches)?,
        format: answer_format_of(matches)?,
    })
}

/// Each FILE of the command `together`.
fn files_of<'a>(alloc: Global, matches: &ArgMatches<'a>) -> Result<Vec<&'a str>, WordsFault>
    ensures ok { IfOk result (λ files. GivesFiles (rows_of (found_of matches.now)) files.items) }
    ensures err { IfErr result (FailsByFiles (rows_of (found_of matches.now))) }
{
    match matches.get_strs("files") {
        Some(files) => Ok(Vec::from_slice(alloc, files)?),
        None => Err(WordsFault::Missing),
    }
}

/// The values of the command `name`.
fn command_of<'a>(
    alloc: Global,
    name: &'a str,
    matches: &ArgMatches<'a>,
) -> Result<Words<'a>, WordsFault>
    ensures ok { IfOk result (Gives name.entry.now (rows_of (found_of matches.now))) }
    ensures err { IfErr result (FailsByValue name.entry.now (rows_of (found_of matches.now))) }
{
    match name {
        "check" => check_of(matches),
        "show" => Ok(Words::Show {
            source: source_of(matches)?,
        }),
        "run" => run_of(matches),
        "draw" => draw_of(alloc, matches),
        "threads" => threads_of(matches),
        "judge" => judge_of(alloc, matches),
        "lockstep" => lockstep_of(alloc, matches),
        "realise" => realise_of(matches),
        "rounds" => rounds_of(matches),
        "together" => Ok(Words::Together {
            files: files_of(alloc, matches)?,
        }),
        "explore" => explore_of(matches),
        _ => Err(WordsFault::Missing),
    }
}

/// What the words say, which stand after the program's own name.
///
/// A value that is missing, a repeated option, an unknown word, no word at all and a call for help
/// or the version are `WordsFault::Refused`, with `clap`'s error. Where SOURCE has a fault too,
/// `clap`'s goes first. Where `clap` refuses the words and an option that takes numbers has a
/// number below 0 behind it, that is told. Standard input as two files is told before the fault of
/// a value.
pub fn read_words<'a>(alloc: Global, words: &'a [&'a str]) -> Result<Words<'a>, WordsFault>
    // The command and its values are those of `clap`'s definition of a simple command's matches,
    // in which it finds no mistake.
    ensures ok { IfOk result (Means (map (λ s. s.now) words.entry.now)) }
    ensures flawless { OnOk result (fault_of roundc_app (map (λ s. s.now) words.entry.now) ≡ []) }
    ensures err { IfErr result (Explains (map (λ s. s.now) words.entry.now)) }
{
    let command = roundc_command(alloc)?;
    let matches = match command.try_get_matches_from(words) {
        Ok(matches) => matches,
        Err(error) => return Err(refusal(error, words)),
    };
    match matches.subcommand() {
        Some((name, inner)) => command_of(alloc, name, inner),
        None => unreachable!(),
    }
}
