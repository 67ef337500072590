//! The question of a search, and its digest.
ghost use Rattle.std.specs.Prelude.{◌≡◌, IfOk};
ghost use Rattle.exploration_texts.specs.Questions.{faults_word, question_text, word_of};
ghost use Rattle.sha2.specs.Sha256.{sha256};

use command_words::{Checks, Exploring, FaultChoice};
use round_meaning::Setup;
use run_events::NoMemory;
use sha2::{Digest, Sha256};
use std::alloc::Global;
use std::fmt;

/// The digest of a question: the SHA-256 of all that the answers of a search depend on but for the
/// inputs. These are the numbers of the header, the options that say what is asked, and the text of
/// the source. The parts of one search have the same digest.
pub fn question_digest(
    alloc: Global,
    source: &str,
    setup: &Setup,
    exploring: &Exploring<'_>,
) -> Result<[u8; 32], NoMemory>
    ensures { IfOk result
        (λ digest. digest ≡ sha256 (question_text source.now setup.now exploring.now)) }
{
    let header = format!(in alloc; "{}", HeaderText(setup))?;
    let runs = format!(in alloc; "{}", RunsText(exploring))?;
    let safety = format!(in alloc; "{}", SafetyText(exploring.checks))?;
    let others = format!(in alloc; "{}", OthersText(exploring))?;
    let mut hasher = Sha256::new();
    hasher.update(header.as_bytes());
    hasher.update(runs.as_bytes());
    hasher.update(safety.as_bytes());
    hasher.update(others.as_bytes());
    hasher.update(source.as_bytes());
    Ok(hasher.finalize())
}

/// The numbers of the header.
#[derive(Clone, Copy)]
struct HeaderText<'a>(&'a Setup);

impl fmt::Display for HeaderText<'_> {
    ghost use Rattle.std.specs.Prelude.{Some};
    ghost use Rattle.exploration_texts.specs.Questions.{header_words};

    ghost output = { λ header. Some (header_words header.0.now) };

    fn fmt<W: fmt::Write>(&self, f: &mut fmt::Formatter<W>) -> fmt::Result {
        let setup = self.0;
        write!(
            f,
            "nodes {} faults {} rounds {}",
            setup.nodes, setup.faults, setup.rounds
        )
    }
}

/// Which runs are asked about.
#[derive(Clone, Copy)]
struct RunsText<'a>(&'a Exploring<'a>);

impl fmt::Display for RunsText<'_> {
    ghost use Rattle.std.specs.Prelude.{Some};
    ghost use Rattle.exploration_texts.specs.Questions.{runs_words};

    ghost output = { λ runs. Some (runs_words runs.0.now) };

    fn fmt<W: fmt::Write>(&self, f: &mut fmt::Formatter<W>) -> fmt::Result {
        let faults = faults_word(self.0.faults);
        let clear = ClearText(self.0.clear);
        write!(f, " fail {faults} clear {clear} hears {}", self.0.hears)
    }
}

/// Which properties of safety are asked.
#[derive(Clone, Copy)]
struct SafetyText(Checks);

impl fmt::Display for SafetyText {
    ghost use Rattle.std.specs.Prelude.{Some};
    ghost use Rattle.exploration_texts.specs.Questions.{safety_words};

    ghost output = { λ safety. Some (safety_words safety.0) };

    fn fmt<W: fmt::Write>(&self, f: &mut fmt::Formatter<W>) -> fmt::Result {
        let agreement = word_of(self.0.agreement);
        let validity = word_of(self.0.validity);
        let finality = word_of(self.0.finality);
        write!(
            f,
            " agreement {agreement} validity {validity} final {finality}"
        )
    }
}

/// C, or `-`.
#[derive(Clone, Copy)]
struct ClearText(Option<u32>);

impl fmt::Display for ClearText {
    ghost use Rattle.std.specs.Prelude.{Some};
    ghost use Rattle.exploration_texts.specs.Questions.{clear_text};

    ghost output = { λ clear. Some (clear_text clear.0) };

    fn fmt<W: fmt::Write>(&self, f: &mut fmt::Formatter<W>) -> fmt::Result {
        match self.0 {
            Some(round) => write!(f, "{round}"),
            None => write!(f, "-"),
        }
    }
}

/// Which other properties are asked, and EXPR behind its length.
#[derive(Clone, Copy)]
struct OthersText<'a>(&'a Exploring<'a>);

impl fmt::Display for OthersText<'_> {
    ghost use Rattle.std.specs.Prelude.{Some};
    ghost use Rattle.exploration_texts.specs.Questions.{others_words};

    ghost output = { λ others. Some (others_words others.0.now) };

    fn fmt<W: fmt::Write>(&self, f: &mut fmt::Formatter<W>) -> fmt::Result {
        let termination = word_of(self.0.checks.termination);
        let always = AlwaysText(self.0.always);
        write!(f, " termination {termination} always {always}\n")
    }
}

/// EXPR behind its length, or `-`.
#[derive(Clone, Copy)]
struct AlwaysText<'a>(Option<&'a str>);

impl fmt::Display for AlwaysText<'_> {
    ghost use Rattle.std.specs.Prelude.{Some};
    ghost use Rattle.exploration_texts.specs.Questions.{always_text};

    ghost output = { λ always. Some (always_text always.0) };

    fn fmt<W: fmt::Write>(&self, f: &mut fmt::Formatter<W>) -> fmt::Result {
        match self.0 {
            Some(text) => write!(f, "{} {text}", text.len()),
            None => write!(f, "-"),
        }
    }
}

fn word_of(asked: bool) -> &'static str
    ensures { result.now ≡ word_of asked }
{
    if asked { "yes" } else { "no" }
}

fn faults_word(faults: FaultChoice) -> &'static str
    ensures { result.now ≡ faults_word faults }
{
    match faults {
        FaultChoice::Nobody => "none",
        FaultChoice::Omission => "omission",
        FaultChoice::Crash => "crash",
    }
}
