//! Running the transcripts that are asked for.
ghost use Rattle.std.specs.Prelude.{◌≡◌};

use crate::finding::{FolderDesk, candidates};
use crate::options::{Format, Options};
use crate::reporting::{write_head, write_tail};
use crate::running::Runner;
use crate::tested::{Tested, TestedFile, are_equal};
use crate::testing::unwritten;
use crate::transcript::{EntryKind, Transcript, TranscriptFault};
use command_runs::{DeskFault, Refusal};
use run_events::NoMemory;
use schedule_text::MAX_TEXT;
use std::alloc::Global;
use std::io::Write;
use std::str::from_utf8;
use std::sync::Wait;
use std::thread::Threads;

/// The transcripts that are tested, and what runs their commands.
#[derive(Drop)]
pub(crate) struct Tests<'t, 'a, R> {
    pub rt: &'t R,
    pub alloc: Global,
    pub options: &'t Options<'a>,
}

/// What became of the tests.
#[derive(Drop)]
pub(crate) struct Outcome {
    /// Whether each transcript could be read, and each command printed what it must or the
    /// transcripts are updated.
    pub passed: bool,
    pub updates: Vec<Update>,
}

/// The new text of a transcript.
#[derive(Drop)]
pub(crate) struct Update {
    pub name: String,
    pub text: String,
}

/// A file whose text is a transcript, or may be.
#[derive(Clone, Copy)]
struct Candidate<'n> {
    name: &'n str,
    /// Whether it was found in a folder: then it need be no transcript.
    is_found: bool,
}

impl<R: Threads + Wait + Sync> Tests<'_, '_, R> {
    /// Tests all transcripts and prints what became of them. Nothing is written to the desk.
    pub(crate) fn run<D: FolderDesk, O: Write, E: Write>(
        &self,
        desk: &mut D,
        out: &mut O,
        err: &mut E,
    ) -> Result<Outcome, Refusal>
        ensures written { D.written desk.new ≡ D.written desk.old }
    {
        let mut outcome = Outcome {
            passed: true,
            updates: Vec::new(self.alloc),
        };
        let format = self.format();
        write_head(format, out).map_err(unwritten)?;
        for name in self.options.names.as_slice() {
            self.run_named(desk, name, &mut outcome, out, err)?;
        }
        write_tail(format, out).map_err(unwritten)?;
        Ok(outcome)
    }

    fn format(&self) -> Format {
        self.options.format
    }

    /// Tests a file, or the transcripts of a folder.
    fn run_named<D: FolderDesk, O: Write, E: Write>(
        &self,
        desk: &mut D,
        name: &str,
        outcome: &mut Outcome,
        out: &mut O,
        err: &mut E,
    ) -> Result<(), Refusal>
        ensures written { D.written desk.new ≡ D.written desk.old }
    {
        if !desk.is_folder(name) {
            let candidate = Candidate {
                name,
                is_found: false,
            };
            return self.run_file(desk, candidate, outcome, out, err);
        }
        let names = candidates(self.alloc, desk, name).map_err(refused)?;
        for name in &names {
            let candidate = Candidate {
                name: name.as_str(),
                is_found: true,
            };
            self.run_file(desk, candidate, outcome, out, err)?;
        }
        Ok(())
    }

    /// Tests a file.
    fn run_file<D: FolderDesk, O: Write, E: Write>(
        &self,
        desk: &mut D,
        candidate: Candidate<'_>,
        outcome: &mut Outcome,
        out: &mut O,
        err: &mut E,
    ) -> Result<(), Refusal>
        ensures written { D.written desk.new ≡ D.written desk.old }
    {
        let name = candidate.name;
        let bytes = self.read(desk, name)?;
        let Some(text) = bytes
            .as_ref()
            .and_then(|bytes| from_utf8(bytes.as_slice()).ok())
        else {
            outcome.passed = false;
            return writeln!(err, "{name}: can't be read").map_err(unwritten);
        };
        if candidate.is_found && !has_command(text) {
            return Ok(());
        }
        match self.run_text(desk, name, text) {
            Ok(tested) => self.report(&tested, text, outcome, out),
            Err(TranscriptFault::NoMemory) => Err(Refusal::NoMemory),
            Err(fault) => {
                outcome.passed = false;
                writeln!(err, "{name}:{fault}").map_err(unwritten)
            }
        }
    }

    /// The bytes of a transcript, if it can be read.
    fn read<D: FolderDesk>(&self, desk: &mut D, name: &str) -> Result<Option<Vec<u8>>, Refusal>
        ensures written { D.written desk.new ≡ D.written desk.old }
    {
        match desk.read(self.alloc, name, MAX_TEXT) {
            Ok(bytes) => Ok(Some(bytes)),
            Err(DeskFault::Failed) => Ok(None),
            Err(DeskFault::NoMemory) => Err(Refusal::NoMemory),
        }
    }

    /// Runs the commands of a transcript.
    fn run_text<'t, D: FolderDesk>(
        &self,
        desk: &mut D,
        name: &'t str,
        text: &'t str,
    ) -> Result<TestedFile<'t>, TranscriptFault>
        ensures written { D.written desk.new ≡ D.written desk.old }
    {
        let transcript = Transcript::read(self.alloc, text)?;
        let mut runner = Runner::new(self.rt, self.alloc, folder_of(name));
        let mut commands = Vec::new(self.alloc);
        for entry in &transcript.entries {
            let printed = runner.run(&transcript, entry, desk)?;
            if entry.kind == EntryKind::Command {
                let passed = are_equal(transcript.block(entry.wanted), printed.as_slice());
                commands.push(Tested {
                    entry: *entry,
                    printed,
                    passed,
                })?;
            }
        }
        Ok(TestedFile {
            name,
            transcript,
            commands,
        })
    }

    /// Prints what became of a transcript, and notes its new text if it's to be updated.
    fn report<O: Write>(
        &self,
        tested: &TestedFile<'_>,
        text: &str,
        outcome: &mut Outcome,
        out: &mut O,
    ) -> Result<(), Refusal> {
        if !self.options.update {
            outcome.passed = outcome.passed && tested.failed() == 0;
            return tested
                .write(self.alloc, self.format(), out)
                .map_err(unwritten);
        }
        self.note_update(tested, text, outcome)?;
        tested.write_update(out).map_err(unwritten)
    }
}

impl<R> Tests<'_, '_, R> {
    /// Notes the new text of a transcript, if it isn't the old one.
    fn note_update(
        &self,
        tested: &TestedFile<'_>,
        text: &str,
        outcome: &mut Outcome,
    ) -> Result<(), NoMemory> {
        let updated = tested.updated(self.alloc)?;
        if updated.as_str() != text {
            outcome.updates.push(Update {
                name: String::from_str(self.alloc, tested.name)?,
                text: updated,
            })?;
        }
        Ok(())
    }
}

/// Whether a line of a text begins as a command.
fn has_command(text: &str) -> bool {
    text.lines().any(|line| line.starts_with("roundc "))
}

/// The folder of a file, with the slash at its end; empty for the current one.
fn folder_of(name: &str) -> &str {
    match name.rfind('/') {
        Some(slash) => name.get(..slash.saturating_add(1)).unwrap_or(""),
        None => "",
    }
}

fn refused(_fault: TranscriptFault) -> Refusal {
    Refusal::NoMemory
}
