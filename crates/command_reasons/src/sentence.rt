//! What is said of a place.
use std::fmt;
use std::io::ErrorKind;

/// A sentence about a part of a text.
#[derive(Clone, Copy, PartialEq, Eq, Debug)]
pub(crate) enum Sentence<'a> {
    /// The file can't be read, for what the system said, if it's known.
    Unread(Option<ErrorKind>),
    /// The file can't be written, for what the system said, if it's known.
    Unwritable(Option<ErrorKind>),
    /// How a header is given by its numbers.
    HeaderNumbers,
    /// A trace would be written over a file that is read.
    TraceIsRead,
    /// The bytes from here on are no UTF-8.
    NotUtf8,
    TooLong,
    /// These are the forms that may stand on the line.
    Expected(&'a str),
    /// The text ends where a line of these forms must stand.
    EndsBefore(&'a str),
    NumberTooLarge,
    ByteOrderMark,
    /// A comment stands behind other words.
    CommentAlone,
    /// A blank or a tab is too many.
    OneBlank,
    DigitsAlone,
    /// Numbers have commas between them.
    BlanksBetween,
    /// The line stands in a thread setup only.
    OfThreads,
    /// This word is expected, and it's written with other letters.
    IsIt(&'a str),
    /// A program of the library is asked for with so many values.
    ValuesOutside {
        values: u32,
    },
    /// `@dls1` is asked for with too few nodes.
    TooFewNodes {
        nodes: u32,
        faults: u32,
    },
    /// A number of the header is outside its limits.
    Outside {
        what: &'a str,
        least: u32,
        most: u32,
    },
    InputCount {
        inputs: usize,
        nodes: u32,
    },
    InputTooLarge {
        input: u32,
        values: u32,
    },
    NoNode {
        node: u32,
        nodes: u32,
    },
    NoRound {
        round: u32,
        rounds: u32,
    },
    BackwardRounds {
        first: u32,
        last: u32,
    },
    NoCopy {
        copy: u32,
    },
    LongTable {
        entries: usize,
    },
    HearsTooMany {
        hears: u32,
        nodes: u32,
    },
    /// A node that is taken as correct stops or crashes.
    CorrectStops {
        node: u32,
    },
    TooDeep,
    TooLongSource,
    /// An expression could end here, or go on with an operator.
    ExpressionEnds,
    /// A name in a condition isn't a variable's.
    NoVariable,
    /// An expression is no condition on a state.
    NoCondition,
    /// An expression is no condition, since it has this type.
    NoBool(&'a str),
    /// A number, a name or a list passes this limit.
    Limit(&'a str),
    /// Where a name that has to do with the fault is declared.
    DeclaredHere,
    /// Where a name has its first meaning.
    FirstMeaning,
    /// Where the first declaration of its kind stands, `input` or `decide`.
    FirstOfKind(&'a str),
    /// Where the fields of a message stand.
    FieldsHere,
}

impl fmt::Display for Sentence<'_> {
    fn fmt<W: fmt::Write>(&self, f: &mut fmt::Formatter<W>) -> fmt::Result {
        match self {
            Sentence::Unread(failure) => write_unread(*failure, f),
            Sentence::Unwritable(failure) => write_unwritable(*failure, f),
            Sentence::HeaderNumbers => {
                write!(
                    f,
                    "a header without a file is @N:T:R, its nodes, faults and rounds, as @3:1:8"
                )
            }
            Sentence::TraceIsRead => {
                write!(
                    f,
                    "the trace can't be written over a file that the command reads"
                )
            }
            Sentence::TooLong => write!(f, "the text has more than 16777216 bytes"),
            Sentence::NotUtf8 => write!(f, "the text isn't UTF-8 from here on"),
            Sentence::Expected(forms) => write!(f, "expected {forms}"),
            Sentence::EndsBefore(forms) => write!(f, "the text ends where it needs {forms}"),
            Sentence::ByteOrderMark => write!(f, "the text begins with a byte order mark"),
            Sentence::CommentAlone => write!(f, "a comment is a line of its own"),
            Sentence::OneBlank => {
                write!(f, "one blank stands between two words, and none elsewhere")
            }
            Sentence::DigitsAlone => write!(f, "a number is digits alone"),
            Sentence::BlanksBetween => write!(f, "numbers have a blank between them"),
            Sentence::OfThreads => write!(f, "this line stands in a thread setup only"),
            Sentence::IsIt(word) => write!(f, "is it `{word}`?"),
            Sentence::NumberTooLarge => write!(f, "a number is above 4294967295"),
            Sentence::ValuesOutside { values } => {
                write!(f, "a program has 1 to 64 values, and not {values}")
            }
            Sentence::TooFewNodes { nodes, faults } => write!(
                f,
                "@dls1 needs 2t + 1 nodes at least for t faults: {nodes} are too few for {faults}"
            ),
            Sentence::Outside { what, least, most } => { write!(f, "{what} is {least} to {most}") }
            Sentence::InputCount { inputs, nodes } => write!(
                f,
                "{} for {}: each node has one",
                Count(*inputs as u64, "input"),
                Count(u64::from(*nodes), "node")
            ),
            Sentence::InputTooLarge { input, values } => {
                write!(
                    f,
                    "the input {input} isn't below {values}, the program's number of values"
                )
            }
            Sentence::NoNode { node, nodes: 1 } => {
                write!(f, "there is no node {node}: the only node is 0")
            }
            Sentence::NoNode { node, nodes } => write!(
                f,
                "there is no node {node}: the nodes are 0 to {}",
                nodes.saturating_sub(1)
            ),
            Sentence::NoRound { round, rounds: 1 } => {
                write!(f, "there is no round {round}: the run has one round")
            }
            Sentence::NoRound { round, rounds } => {
                write!(f, "there is no round {round}: the rounds are 1 to {rounds}")
            }
            Sentence::BackwardRounds { first, last } => {
                write!(
                    f,
                    "the rounds {first} to {last} are none: the first is after the last"
                )
            }
            Sentence::NoCopy { copy } => {
                write!(
                    f,
                    "no copy has the number {copy}: copies are numbered 1 to 3"
                )
            }
            Sentence::LongTable { entries } => {
                write!(
                    f,
                    "a list has at most 65536 numbers, and this one has {entries}"
                )
            }
            Sentence::HearsTooMany { hears, nodes } => write!(
                f,
                "no node hears {} in a run of {}",
                Count(u64::from(*hears), "node"),
                Count(u64::from(*nodes), "node")
            ),
            Sentence::CorrectStops { node } => {
                write!(f, "node {node} is one of --correct, and these don't stop")
            }
            Sentence::TooDeep => write!(f, "an expression nests more than 32 deep"),
            Sentence::TooLongSource => write!(f, "the text has more than 65536 bytes"),
            Sentence::ExpressionEnds => {
                write!(f, "expected an operator, or the end of the expression")
            }
            Sentence::NoVariable => write!(f, "this name isn't a variable of the program"),
            Sentence::NoCondition => write!(
                f,
                "this isn't a condition on a node's state: its types don't fit, it's no bool, or \
                 it says what only a message has"
            ),
            Sentence::NoBool(ty) => write!(f, "a condition is a bool, and this is a {ty}"),
            Sentence::Limit(limit) => write!(f, "{limit}"),
            Sentence::DeclaredHere => write!(f, "this name is declared here"),
            Sentence::FirstMeaning => write!(f, "the name has its first meaning here"),
            Sentence::FirstOfKind(kind) => write!(f, "the first \"{kind}\" stands here"),
            Sentence::FieldsHere => write!(f, "the message's fields stand here"),
        }
    }
}

/// A number of things, with the word for one of them.
#[derive(Clone, Copy)]
struct Count(u64, &'static str);

impl fmt::Display for Count {
    fn fmt<W: fmt::Write>(&self, f: &mut fmt::Formatter<W>) -> fmt::Result {
        let Count(number, word) = self;
        if *number == 1 {
            write!(f, "1 {word}")
        } else {
            write!(f, "{number} {word}s")
        }
    }
}

fn write_unread<W: fmt::Write>(
    failure: Option<ErrorKind>,
    f: &mut fmt::Formatter<W>,
) -> fmt::Result {
    write!(f, "the file can't be read")?;
    match failure {
        Some(ErrorKind::NotFound) => write!(f, ": there is no such file"),
        _ => write_failure(failure, f),
    }
}

fn write_unwritable<W: fmt::Write>(
    failure: Option<ErrorKind>,
    f: &mut fmt::Formatter<W>,
) -> fmt::Result {
    write!(f, "the file can't be written")?;
    match failure {
        Some(ErrorKind::NotFound) => write!(f, ": there is no such folder"),
        _ => write_failure(failure, f),
    }
}

/// What the system said of a file that is there, or of its path.
fn write_failure<W: fmt::Write>(
    failure: Option<ErrorKind>,
    f: &mut fmt::Formatter<W>,
) -> fmt::Result {
    match failure {
        Some(ErrorKind::PermissionDenied) => write!(f, ": permission denied"),
        Some(ErrorKind::IsADirectory) => write!(f, ": it's a folder"),
        Some(ErrorKind::NotADirectory) => write!(f, ": a part of its path is no folder"),
        Some(ErrorKind::FilesystemLoop) => write!(f, ": too many links"),
        Some(ErrorKind::InvalidFilename) => write!(f, ": its name is too long"),
        Some(ErrorKind::ReadOnlyFilesystem) => write!(f, ": it's on a read-only file system"),
        Some(ErrorKind::ExecutableFileBusy) => write!(f, ": it's a program that runs"),
        _ => Ok(()),
    }
}
