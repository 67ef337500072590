//! How the runs are gone through: which part of the inputs, by how many jobs, or as a sample.
ghost use Rattle.std.specs.Prelude.{◌≡◌, ◌++◌, ◌∷◌, ◌↔◌, [], ℕ, IfErr, IfNone, IfOk, IfSome};
ghost use Rattle.std.specs.Prelude.{IsTrue, None, codes};
ghost use Rattle.std.specs.List.{after_first, before_first};
ghost use Rattle.clap.specs.Words.{first_of, found_of, rows_of};
ghost use Rattle.command_words.specs.Searching.{CountText, FailsBySearching, GivesJobs, GivesPart};
ghost use Rattle.command_words.specs.Searching.{GivesSample, GivesSeed, GoesWithParts, JobsText};
ghost use Rattle.command_words.specs.Searching.{PartText, is_slash, slash};

use crate::headers::has_header_numbers;
use crate::values::read_number;
use crate::words::{WordsFault, optional_text};
use clap::ArgMatches;

/// Part I of N, counted from 1; I is no larger than N.
#[derive(Clone, Copy, Debug, PartialEq, Eq)]
pub struct PartChoice {
    pub number: u32,
    pub count: u32,
}

/// How many runs are made at random, and the seed that they are made from.
#[derive(Clone, Copy, Debug, PartialEq, Eq)]
pub struct SampleChoice {
    /// From 1 on.
    pub count: u32,
    pub seed: u32,
}

/// The largest number of jobs that J may be.
pub(crate) const MAX_JOBS: u32 = 256;

/// The largest number of parts that N may be.
pub(crate) const MAX_PARTS: u32 = 65_536;

/// The parts before and after the first slash.
fn cut_at_slash(text: &str) -> Option<(&str, &str)>
    ensures none { IfNone result (after_first is_slash text.now ≡ []) }
    ensures before { IfSome result (λ p. p.0.now ≡ before_first is_slash text.now) }
    ensures after { IfSome result (λ p. p.1.now ≡ after_first is_slash text.now) }
    ensures whole { IfSome result (λ p. text.now ≡ p.0.now ++ slash ∷ p.1.now) }
{
    text.split_once('/')
}

/// The part that a text names, if it is that of one.
fn read_part(text: &str) -> Option<PartChoice>
    ensures some { IfSome result (PartText text.now) }
    ensures none { IfNone result ((p : PartChoice) → ¬ (PartText text.now p)) }
{
    let (before, after) = cut_at_slash(text)?;
    let number = read_number(before)?;
    let count = read_number(after)?;
    if number < 1 || count < number || MAX_PARTS < count {
        return None;
    }
    Some(PartChoice { number, count })
}

/// Whether all lists of inputs are asked about, and no sample.
fn goes_with_parts(matches: &ArgMatches<'_>) -> bool
    ensures { IsTrue result ↔ GoesWithParts (rows_of (found_of matches.now)) }
{
    match (
        optional_text(matches, "inputs"),
        optional_text(matches, "sample"),
    ) {
        (Some(inputs), None) => inputs == "any",
        (None, None) => has_header_numbers(matches),
        (_, Some(_)) => false,
    }
}

/// The part that is asked about, if `--part` isn't left out.
pub(crate) fn part_of(matches: &ArgMatches<'_>) -> Result<Option<PartChoice>, WordsFault>
    ensures ok { IfOk result (GivesPart (rows_of (found_of matches.now))) }
    ensures err { IfErr result (FailsBySearching (rows_of (found_of matches.now))) }
{
    match optional_text(matches, "part") {
        None => Ok(None),
        Some(text) => {
            if !goes_with_parts(matches) {
                return Err(WordsFault::Part);
            }
            match read_part(text) {
                Some(part) => Ok(Some(part)),
                None => Err(WordsFault::Part),
            }
        }
    }
}

/// The number of jobs that a text says.
fn read_jobs(text: &str) -> Option<u32>
    ensures some { IfSome result (JobsText text.now) }
    ensures none { IfNone result ((n : ℕ) → ¬ (JobsText text.now n)) }
{
    match read_number(text) {
        Some(jobs) if 1 <= jobs && jobs <= MAX_JOBS => Some(jobs),
        _ => None,
    }
}

/// How many jobs there are, 1 if `--jobs` is left out.
pub(crate) fn jobs_of(matches: &ArgMatches<'_>) -> Result<u32, WordsFault>
    ensures ok { IfOk result (GivesJobs (rows_of (found_of matches.now))) }
    ensures err { IfErr result (FailsBySearching (rows_of (found_of matches.now))) }
{
    match (
        optional_text(matches, "jobs"),
        optional_text(matches, "sample"),
    ) {
        (None, _) => Ok(1),
        (Some(text), None) => read_jobs(text).ok_or(WordsFault::Jobs),
        (Some(_), Some(_)) => Err(WordsFault::Jobs),
    }
}

/// The number of runs that a text says.
fn read_count(text: &str) -> Option<u32>
    ensures some { IfSome result (CountText text.now) }
    ensures none { IfNone result ((n : ℕ) → ¬ (CountText text.now n)) }
{
    match read_number(text) {
        Some(count) if 1 <= count => Some(count),
        _ => None,
    }
}

/// The seed, 0 if `--seed` is left out.
fn seed_of(matches: &ArgMatches<'_>) -> Result<u32, WordsFault>
    ensures ok { IfOk result (GivesSeed (rows_of (found_of matches.now))) }
    ensures err { IfErr result (FailsBySearching (rows_of (found_of matches.now))) }
{
    match optional_text(matches, "seed") {
        None => Ok(0),
        Some(text) => read_number(text).ok_or(WordsFault::Seed),
    }
}

/// The sample that is asked for, if `--sample` isn't left out.
pub(crate) fn sample_of(matches: &ArgMatches<'_>) -> Result<Option<SampleChoice>, WordsFault>
    ensures ok { IfOk result (GivesSample (rows_of (found_of matches.now))) }
    ensures err { IfErr result (FailsBySearching (rows_of (found_of matches.now))) }
{
    match optional_text(matches, "sample") {
        None => no_sample(matches),
        Some(text) => {
            let count = read_count(text).ok_or(WordsFault::Sample)?;
            let seed = seed_of(matches)?;
            Ok(Some(SampleChoice { count, seed }))
        }
    }
}

/// No sample, for which there may be no seed either.
fn no_sample(matches: &ArgMatches<'_>) -> Result<Option<SampleChoice>, WordsFault>
    requires { first_of (codes "sample") (rows_of (found_of matches.now)) ≡ None }
    ensures ok { IfOk result (GivesSample (rows_of (found_of matches.now))) }
    ensures err { IfErr result (FailsBySearching (rows_of (found_of matches.now))) }
{
    match optional_text(matches, "seed") {
        None => Ok(None),
        Some(_) => Err(WordsFault::Seed),
    }
}
