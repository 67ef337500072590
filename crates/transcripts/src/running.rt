//! Running the commands of a transcript.
ghost use Rattle.std.specs.Prelude.{◌≡◌};

use crate::case_desk::CaseDesk;
use crate::printed::printed_lines;
use crate::transcript::{Entry, EntryKind, Transcript, TranscriptFault};
use crate::words::words_of;
use command_reasons::{TellingDesk, files_read_by, run_or_explain};
use command_runs::DeskFault;
use schedule_text::MAX_TEXT;
use std::alloc::Global;
use std::io::{ErrorKind, Write};
use std::sync::Wait;
use std::thread::Threads;

/// The name of standard input.
const STANDARD_INPUT: &str = "-";

/// Runs the commands of a transcript one after the other, with files by names from its folder.
#[derive(Drop)]
pub(crate) struct Runner<'r, R> {
    rt: &'r R,
    alloc: Global,
    /// The folder of the transcript, with the slash at its end; empty for the current one.
    folder: &'r str,
    files: CaseDesk,
}

impl<'r, R: Threads + Wait + Sync> Runner<'r, R> {
    pub(crate) fn new(rt: &'r R, alloc: Global, folder: &'r str) -> Runner<'r, R> {
        Runner {
            rt,
            alloc,
            folder,
            files: CaseDesk::new(alloc),
        }
    }

    /// What a command prints, line by line; of a file that is given, nothing.
    pub(crate) fn run<D: TellingDesk>(
        &mut self,
        transcript: &Transcript<'_>,
        entry: &Entry,
        desk: &mut D,
    ) -> Result<Vec<String>, TranscriptFault>
        ensures written { D.written desk.new ≡ D.written desk.old }
    {
        let number = entry.place.saturating_add(1);
        let words = words_of(self.alloc, transcript.head(entry), number)?;
        let given = self.bytes_of(transcript.block(entry.given))?;
        match (entry.kind, words.as_slice()) {
            (EntryKind::File, [_, name]) => {
                self.files.give(name, given)?;
                Ok(Vec::new(self.alloc))
            }
            (EntryKind::Command, [_, command @ ..]) => {
                self.files.give(STANDARD_INPUT, given)?;
                self.fetch(command, desk)?;
                self.call(command)
            }
            _ => Err(TranscriptFault::Unnamed(number)),
        }
    }

    /// The lines as the content of a file.
    fn bytes_of(&self, lines: &[&str]) -> Result<Vec<u8>, TranscriptFault> {
        let mut bytes = Vec::new(self.alloc);
        for line in lines {
            bytes.extend_from_slice(line.as_bytes())?;
            bytes.push(b'\n')?;
        }
        Ok(bytes)
    }

    /// Gets the files that a command reads, but for those that the transcript itself has given.
    fn fetch<D: TellingDesk>(
        &mut self,
        command: &[&str],
        desk: &mut D,
    ) -> Result<(), TranscriptFault>
        ensures written { D.written desk.new ≡ D.written desk.old }
    {
        let command = match command {
            ["why", command @ ..] => command,
            command => command,
        };
        let names = files_read_by(self.alloc, command)?;
        for name in names.as_slice() {
            if !self.files.has(name) {
                self.fetch_one(name, desk)?;
            }
        }
        Ok(())
    }

    fn fetch_one<D: TellingDesk>(&mut self, name: &str, desk: &mut D) -> Result<(), TranscriptFault>
        ensures written { D.written desk.new ≡ D.written desk.old }
    {
        let path = self.path_of(name)?;
        match desk.read(self.alloc, path.as_str(), MAX_TEXT) {
            Ok(bytes) => self.files.give(name, bytes)?,
            Err(DeskFault::Failed) => {
                let why = desk.failure().unwrap_or(ErrorKind::NotFound);
                self.files.miss(name, why)?;
            }
            Err(DeskFault::NoMemory) => return Err(TranscriptFault::NoMemory),
        }
        Ok(())
    }

    /// Where a file that a command names is.
    fn path_of(&self, name: &str) -> Result<String, TranscriptFault> {
        let mut path = String::new(self.alloc);
        if !name.starts_with('/') && !name.starts_with('@') {
            path.push_str(self.folder)?;
        }
        path.push_str(name)?;
        Ok(path)
    }

    fn call(&mut self, command: &[&str]) -> Result<Vec<String>, TranscriptFault> {
        let mut out = Vec::new(self.alloc);
        let mut err = Vec::new(self.alloc);
        let status = match command {
            ["test", ..] => {
                err.extend_from_slice(b"error: a transcript doesn't run other transcripts\n")?;
                2
            }
            command => {
                let files = &mut self.files;
                run_or_explain(self.rt, self.alloc, command, files, &mut out, &mut err)
            }
        };
        Ok(printed_lines(self.alloc, out.as_slice(), err.as_slice(), status)?)
    }
}
