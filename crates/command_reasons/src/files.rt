//! The files that a command reads.
ghost use Rattle.std.specs.Prelude.{◌≡◌};

use crate::header::Header;
use command_runs::{Desk, DeskFault, Refusal};
use command_words::{Source, Words, read_words};
use round_lang::MAX_TEXT as MAX_SOURCE;
use run_events::NoMemory;
use schedule_text::{MAX_TEXT as MAX_SCHEDULE, ScheduleFault};
use std::alloc::Global;
use std::io::{ErrorKind, Write};

/// A desk that remembers what the system said when a file couldn't be read or written.
pub trait TellingDesk: Desk {
    /// What the system said the last time, if it's known.
    fn failure(&self) -> Option<ErrorKind>;
}

/// What a file is read as.
#[derive(Clone, Copy, PartialEq, Eq, Debug)]
pub(crate) enum FileKind {
    Source,
    Schedule,
    Setup,
    Header,
    Omissions,
    /// The answers of a part of a search.
    Part,
}

/// A file by its name.
#[derive(Clone, Copy)]
struct NamedFile<'a> {
    kind: FileKind,
    name: &'a str,
}

/// A file and its first bytes, one more than its limit at most; `None` if it can't be read, and
/// then what the system said of that, if it's known.
#[derive(Drop)]
pub(crate) struct ReadFile<'a> {
    pub kind: FileKind,
    pub name: &'a str,
    pub bytes: Option<Vec<u8>>,
    pub failure: Option<ErrorKind>,
}

/// The files of a command, each read once.
#[derive(Drop)]
pub(crate) struct CommandFiles<'a> {
    files: Vec<ReadFile<'a>>,
}

impl<'a> CommandFiles<'a> {
    /// Reads the files of a command.
    pub(crate) fn read<D: TellingDesk>(
        alloc: Global,
        command: &Words<'a>,
        desk: &mut D,
    ) -> Result<CommandFiles<'a>, Refusal>
        ensures written { D.written desk.new ≡ D.written desk.old }
    {
        let names = names_of(alloc, command)?;
        let mut files = Vec::new(alloc);
        for file in names.as_slice() {
            let bytes = read_file(alloc, *file, desk)?;
            let failure = if bytes.is_none() {
                desk.failure()
            } else {
                None
            };
            let read = ReadFile {
                kind: file.kind,
                name: file.name,
                bytes,
                failure,
            };
            add(&mut files, read)?;
        }
        Ok(CommandFiles { files })
    }

    /// The files in the order in which they were read.
    pub(crate) fn as_slice(&self) -> &[ReadFile<'a>] {
        &self.files
    }

    /// Tells of the first file that can't be read or isn't UTF-8, and whether there is one.
    pub(crate) fn tell_unread<O: Write>(
        &self,
        alloc: Global,
        out: &mut O,
    ) -> Result<bool, Refusal> {
        for file in self.files.as_slice() {
            if file.tell_unread(alloc, out)? {
                return Ok(true);
            }
        }
        Ok(false)
    }

    /// Tells of the first file but the source whose text is refused for this fault, and whether
    /// there is one.
    pub(crate) fn tell_line<O: Write>(
        &self,
        alloc: Global,
        fault: ScheduleFault,
        out: &mut O,
    ) -> Result<bool, Refusal> {
        for file in self.files.as_slice() {
            if file.kind != FileKind::Source && file.is_refused(alloc, fault)? {
                file.tell_line(alloc, fault, out)?;
                return Ok(true);
            }
        }
        Ok(false)
    }

    /// The header of the run, if there is one and it can be read.
    pub(crate) fn header(&self, alloc: Global) -> Result<Option<Header<'_>>, Refusal> {
        let found = self.files.iter().find(|file| {
            file.kind != FileKind::Source && file.kind != FileKind::Omissions
        });
        match found {
            Some(file) => Header::read(alloc, file),
            None => Ok(None),
        }
    }

    /// The file of a kind, if the command reads one.
    pub(crate) fn of(&self, kind: FileKind) -> Option<&ReadFile<'a>> {
        self.files.iter().find(|file| file.kind == kind)
    }
}

fn add<T: Drop>(list: &mut Vec<T>, item: T) -> Result<(), NoMemory> {
    list.push(item)?;
    Ok(())
}

/// The most bytes of a file that its command takes.
pub(crate) fn limit_of(kind: FileKind) -> usize {
    match kind {
        FileKind::Source | FileKind::Part => MAX_SOURCE,
        _ => MAX_SCHEDULE,
    }
}

/// The first bytes of a file, `None` if it can't be read.
fn read_file<D: Desk>(
    alloc: Global,
    file: NamedFile<'_>,
    desk: &mut D,
) -> Result<Option<Vec<u8>>, Refusal>
    ensures written { D.written desk.new ≡ D.written desk.old }
{
    match desk.read(alloc, file.name, limit_of(file.kind)) {
        Ok(bytes) => Ok(Some(bytes)),
        Err(DeskFault::Failed) => Ok(None),
        Err(DeskFault::NoMemory) => Err(Refusal::NoMemory),
    }
}

/// The names of the files that the command which the words name reads, in the order in which it
/// does; none if the words name no command.
pub fn files_read_by<'a>(alloc: Global, words: &'a [&'a str]) -> Result<Vec<&'a str>, NoMemory> {
    let Ok(command) = read_words(alloc, words) else {
        return Ok(Vec::new(alloc));
    };
    let mut names = Vec::new(alloc);
    for file in names_of(alloc, &command)? {
        names.push(file.name)?;
    }
    Ok(names)
}

/// The names of the files that a command reads, in the order in which it does.
fn names_of<'a>(alloc: Global, command: &Words<'a>) -> Result<Vec<NamedFile<'a>>, NoMemory> {
    let mut names = Vec::new(alloc);
    if let Some(Source::File(name)) = source_of(command) {
        // Standard input is no source.
        let name = if name == "-" { "./-" } else { name };
        names.push(NamedFile {
            kind: FileKind::Source,
            name,
        })?;
    }
    if let Some(file) = run_file_of(command) {
        names.push(file)?;
    }
    if let Some(name) = omission_file_of(command) {
        names.push(NamedFile {
            kind: FileKind::Omissions,
            name,
        })?;
    }
    if let Words::Together { files } = command {
        for name in files.as_slice() {
            names.push(NamedFile {
                kind: FileKind::Part,
                name: *name,
            })?;
        }
    }
    Ok(names)
}

/// The source that a command names, if it names one.
pub(crate) fn source_of<'a>(command: &Words<'a>) -> Option<Source<'a>> {
    match command {
        Words::Check { source, .. } => Some(*source),
        Words::Show { source } => Some(*source),
        Words::Run { source, .. } => Some(*source),
        Words::Draw { source, .. } => Some(*source),
        Words::Threads { source, .. } => Some(*source),
        Words::Judge { source, .. } => Some(*source),
        Words::Lockstep { source, .. } => Some(*source),
        Words::Realise { source, .. } => Some(*source),
        Words::Rounds { source, .. } => Some(*source),
        Words::Explore { source, .. } => Some(*source),
        Words::Together { .. } => None,
    }
}

/// The file with the header of a command's run.
fn run_file_of<'a>(command: &Words<'a>) -> Option<NamedFile<'a>> {
    let (kind, name) = match command {
        Words::Check { .. } | Words::Show { .. } | Words::Together { .. } => return None,
        Words::Run { schedule, .. } => (FileKind::Schedule, *schedule),
        Words::Draw { schedule, .. } => (FileKind::Schedule, *schedule),
        Words::Threads { setup, .. } => (FileKind::Setup, *setup),
        Words::Judge { schedule, .. } => (FileKind::Schedule, *schedule),
        Words::Lockstep { header, .. } => (FileKind::Header, *header),
        Words::Realise { header, .. } => (FileKind::Header, *header),
        Words::Rounds { header, .. } => (FileKind::Header, *header),
        Words::Explore { header, .. } => (FileKind::Header, *header),
    };
    Some(NamedFile { kind, name })
}

/// The file of the omissions of a command's run.
fn omission_file_of<'a>(command: &Words<'a>) -> Option<&'a str> {
    match command {
        Words::Realise { omissions, .. } => Some(*omissions),
        Words::Rounds { omissions, .. } => Some(*omissions),
        Words::Lockstep { changes, .. } => changes.omissions,
        _ => None,
    }
}
