//! A command whose files were read, and why it's refused.
ghost use Rattle.std.specs.Prelude.{◌≡◌};

use crate::before_threads::refused_before_threads;
use crate::columns::{has_unknown_column, tell_columns};
use crate::condition::tell_condition;
use crate::files::{CommandFiles, FileKind, TellingDesk, source_of};
use crate::held_desk::HeldDesk;
use crate::library::LibrarySource;
use crate::located::unwritten;
use crate::options::tell_option;
use crate::parts::tell_together;
use crate::program::program_of;
use crate::refusals::unless_refused;
use crate::round_reasons::tell_rounds;
use crate::run_causes::{tell_correct_crash, tell_unknown};
use crate::run_reasons::{RunQuestion, tell_run};
use crate::search_notes::{tell_proved, tell_untraced};
use crate::source::{tell_check, tell_source};
use crate::trace_faults::tell_unwritable;
use adversary::RunFault;
use algorithm_library::LibraryFault;
use command_runs::{Outcome, Refusal, Terms, TraceFault, serve};
use command_words::{Source, Words};
use round_lang::parse;
use std::alloc::Global;
use std::io::Write;
use std::sync::Wait;
use std::thread::Threads;

/// A command of which it's asked why, with its files.
#[derive(Clone, Copy)]
pub(crate) struct AskedCommand<'w, 'a> {
    pub alloc: Global,
    pub words: &'w [&'w str],
    pub command: &'a Words<'w>,
    pub files: &'a CommandFiles<'w>,
}

impl<'w, 'a> AskedCommand<'w, 'a> {
    /// Tells why the command is refused, or what it prints and why that is so.
    pub(crate) fn tell<R: Threads + Wait + Sync, D: TellingDesk, O: Write>(
        &self,
        rt: &R,
        desk: &mut D,
        out: &mut O,
    ) -> Result<(), Refusal>
        ensures written { D.written desk.new ≡ D.written desk.old }
    {
        if let Words::Together { files } = self.command {
            return tell_together(self.alloc, files.as_slice(), self.files, out);
        }
        if let Words::Threads { source, .. } = self.command {
            return match refused_before_threads(self.alloc, *source, self.files) {
                Ok(()) => self.tell_startable(desk, out),
                Err(refusal) => self.tell_refusal(&refusal, out),
            };
        }
        if self.tell_reasons(out)? {
            return Ok(());
        }
        let mut held = HeldDesk::new(self.alloc, self.files)?;
        let mut printed = Vec::new(self.alloc);
        match serve(rt, self.alloc, self.words, &mut held, &mut printed) {
            Ok(outcome) => self.tell_served(desk, printed.as_slice(), outcome, out),
            // If the trace can be written, there was no memory for what is printed.
            Err(Refusal::Write) => match tell_unwritable(self.command, self.files, desk, out)? {
                true => Ok(()),
                false => Err(Refusal::NoMemory),
            },
            Err(Refusal::Trace(TraceFault::NoMemory)) => Err(Refusal::NoMemory),
            Err(refusal) => {
                // A search whose trace isn't written has answered.
                out.write_all(printed.as_slice()).map_err(unwritten)?;
                self.tell_refusal(&refusal, out)
            }
        }
    }

    /// Tells why threads that are refused for nothing in their files don't start, or that nothing
    /// hinders them.
    fn tell_startable<D: TellingDesk, O: Write>(
        &self,
        desk: &mut D,
        out: &mut O,
    ) -> Result<(), Refusal>
        ensures written { D.written desk.new ≡ D.written desk.old }
    {
        if tell_unwritable(self.command, self.files, desk, out)? {
            return Ok(());
        }
        writeln!(out, "nothing hinders these threads from starting").map_err(unwritten)
    }

    /// Tells what a command prints, if its trace can be written.
    fn tell_served<D: TellingDesk, O: Write>(
        &self,
        desk: &mut D,
        printed: &[u8],
        outcome: Outcome,
        out: &mut O,
    ) -> Result<(), Refusal>
        ensures written { D.written desk.new ≡ D.written desk.old }
    {
        if tell_unwritable(self.command, self.files, desk, out)? {
            return Ok(());
        }
        let mut note = Vec::new(self.alloc);
        // What is written to memory fails only for want of it.
        if self.tell_notes(outcome, &mut note).is_err() {
            return Err(Refusal::NoMemory);
        }
        out.write_all(printed).map_err(unwritten)?;
        out.write_all(note.as_slice()).map_err(unwritten)
    }

    /// Tells of `check` what is proved of the source's program for every number of nodes, and of
    /// `explore` that its trace isn't written.
    fn tell_notes<O: Write>(&self, outcome: Outcome, out: &mut O) -> Result<(), Refusal> {
        if let Words::Check { .. } = self.command {
            let program = program_of(self.alloc, self.command, self.files)?;
            return tell_proved(self.alloc, program.program(), out);
        }
        tell_untraced(self.command, outcome, out)
    }

    /// Tells what a run came to and why, if that is asked and the run is served.
    fn tell_reasons<O: Write>(&self, out: &mut O) -> Result<bool, Refusal> {
        if has_unknown_column(self.alloc, self.command, self.files) {
            return Ok(false);
        }
        let Some(source) = source_of(self.command) else {
            return Ok(false);
        };
        let question = match self.command {
            Words::Run { form, .. } => RunQuestion::Report {
                decided: form.decided,
            },
            Words::Judge {
                correct,
                delta,
                gst,
                ..
            } => RunQuestion::Verdict(Terms {
                correct: correct.as_slice(),
                delta: *delta,
                gst: *gst,
            }),
            Words::Rounds { form, .. } if form.decided => {
                return tell_rounds(self.alloc, source, self.files, out);
            }
            _ => return Ok(false),
        };
        tell_run(self.alloc, source, self.files, question, out)
    }

    /// Tells why the command is refused, or the line of its refusal if no more is known.
    fn tell_refusal<O: Write>(&self, refusal: &Refusal, out: &mut O) -> Result<(), Refusal> {
        let is_told = match refusal {
            Refusal::File => self.files.tell_unread(self.alloc, out)?,
            Refusal::Source(fault) => tell_source(self.alloc, self.files, *fault, out)?,
            Refusal::Check(fault) => tell_check(self.alloc, self.files, *fault, out)?,
            Refusal::Condition(fault) => {
                tell_condition(self.alloc, self.command, self.files, *fault, out)?
            }
            Refusal::Schedule(fault) => self.files.tell_line(self.alloc, *fault, out)?,
            Refusal::Library(fault) => self.tell_library(*fault, out)?,
            Refusal::NoSuchProgram => self.tell_no_program(out)?,
            Refusal::Run(fault) => self.tell_run_fault(*fault, out)?,
            Refusal::NoVariable => { tell_columns(self.alloc, self.command, self.files, out)? }
            Refusal::NoMemory => return Err(Refusal::NoMemory),
            _ => false,
        };
        if is_told {
            return Ok(());
        }
        write!(out, "{refusal}").map_err(unwritten)
    }

    fn tell_library<O: Write>(&self, fault: LibraryFault, out: &mut O) -> Result<bool, Refusal> {
        let header = self.files.header(self.alloc)?;
        match LibrarySource::of(self.command, self.words) {
            Some(source) => source.tell_fault(self.alloc, header.as_ref(), fault, out),
            None => Ok(false),
        }
    }

    fn tell_no_program<O: Write>(&self, out: &mut O) -> Result<bool, Refusal> {
        match LibrarySource::of(self.command, self.words) {
            Some(source) => source.tell_no_program(out),
            None => Ok(false),
        }
    }

    fn tell_run_fault<O: Write>(&self, fault: RunFault, out: &mut O) -> Result<bool, Refusal> {
        match fault {
            RunFault::BadSetup => self.tell_bad_setup(out),
            RunFault::UnknownNode(position) => {
                tell_unknown(self.alloc, self.files, position, out)
            }
            RunFault::UnknownMessage(position) => {
                tell_unknown(self.alloc, self.files, position, out)
            }
            _ => Ok(false),
        }
    }

    /// Tells what of the header or of the options is outside its limits, and whether it can be
    /// told.
    fn tell_bad_setup<O: Write>(&self, out: &mut O) -> Result<bool, Refusal> {
        let Some(header) = self.files.header(self.alloc)? else {
            return Ok(false);
        };
        if let Some(values) = self.values()? {
            if header.tell_fault(self.alloc, values, out)? {
                return Ok(true);
            }
        }
        if tell_option(self.command, &header, out)? {
            return Ok(true);
        }
        match self.command {
            Words::Lockstep { correct, .. } => {
                tell_correct_crash(self.alloc, self.files, correct.as_slice(), out)
            }
            _ => Ok(false),
        }
    }

    /// How many values the program of the command has, if it's known.
    fn values(&self) -> Result<Option<u32>, Refusal> {
        if let Some(Source::Library { values, .. }) = source_of(self.command) {
            return Ok(Some(values));
        }
        let Some(file) = self.files.of(FileKind::Source) else {
            return Ok(None);
        };
        let Some(text) = file.text() else {
            return Ok(None);
        };
        match unless_refused(parse(self.alloc, text))? {
            Some(program) => Ok(Some(program.values())),
            None => Ok(None),
        }
    }
}
