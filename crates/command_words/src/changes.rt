//! What the options `--stop`, `--omissions` and `--delay` change in a run in lockstep.
ghost use Rattle.std.specs.Prelude.{◌≡◌, ◌<◌, ◌∷◌, IfErr, IfNone, IfOk, IfSome, length, map};
ghost use Rattle.clap.specs.Words.{found_of, rows_of};
ghost use Rattle.command_words.specs.Changes.{FailsByChanges, FailsByDelays, FailsByStops};
ghost use Rattle.command_words.specs.Changes.{GivesChanges, IsNoDelays, IsNoNumbers, IsNoStops};
ghost use Rattle.command_words.specs.Changes.{GivesDelays, GivesStops, numbers_of_delays};
ghost use Rattle.command_words.specs.Changes.{numbers_of_stops, values_of};
ghost use Rattle.command_words.specs.Values.{AreNumbers};

use crate::values::read_number;
use crate::words::{WordsFault, optional_text};
use clap::ArgMatches;
use std::alloc::Global;

/// `I C`: the node takes no step from the tick on.
#[derive(Clone, Copy, Debug, PartialEq, Eq)]
pub struct NodeStop {
    pub node: u32,
    pub tick: u32,
}

/// `J I R W`: the message of the round has this delay.
#[derive(Clone, Copy, Debug, PartialEq, Eq)]
pub struct OwnDelay {
    pub sender: u32,
    pub receiver: u32,
    pub round: u32,
    pub delay: u32,
}

/// What is changed in a run in lockstep. Stops and delays are in their order, also those of one
/// node or one message.
#[derive(Debug, Drop, PartialEq, Eq)]
pub struct Changes<'a> {
    pub stops: Vec<NodeStop>,
    /// The FILE of the omissions as it was written, if it isn't left out.
    pub omissions: Option<&'a str>,
    pub delays: Vec<OwnDelay>,
}

/// The numbers that the texts are.
fn read_numbers(alloc: Global, texts: &[&str]) -> Result<Vec<u32>, WordsFault>
    ensures ok { IfOk result (λ list. AreNumbers (map (λ s. s.now) texts.now) list.items) }
    ensures err { IfErr result (IsNoNumbers (map (λ s. s.now) texts.now)) }
{
    let mut numbers = Vec::new(alloc);
    for text in texts {
        let Some(number) = read_number(text) else {
            return Err(WordsFault::Change);
        };
        numbers.push(number)?;
    }
    Ok(numbers)
}

/// The values of an option that may be repeated, as numbers.
fn values_of(alloc: Global, matches: &ArgMatches<'_>, id: &str) -> Result<Vec<u32>, WordsFault>
    ensures ok { IfOk result (λ list.
        AreNumbers (values_of id.now (rows_of (found_of matches.now))) list.items) }
    ensures err { IfErr result (IsNoNumbers (values_of id.now (rows_of (found_of matches.now)))) }
{
    match matches.get_strs(id) {
        Some(texts) => read_numbers(alloc, texts),
        None => Ok(Vec::new(alloc)),
    }
}

/// The stop whose numbers come first, and the numbers after them.
fn first_stop(numbers: &[u32]) -> Option<(NodeStop, &[u32])>
    ensures some { IfSome result (λ p. numbers.now ≡ p.0.node ∷ p.0.tick ∷ p.1.now) }
    ensures none { IfNone result (length numbers.now < 2) }
{
    match numbers {
        [node, tick, rest @ ..] => {
            let stop = NodeStop {
                node: *node,
                tick: *tick,
            };
            Some((stop, rest))
        }
        _ => None,
    }
}

/// The delay whose numbers come first, and the numbers after them.
fn first_delay(numbers: &[u32]) -> Option<(OwnDelay, &[u32])>
    ensures some { IfSome result (λ p. numbers.now
        ≡ p.0.sender ∷ p.0.receiver ∷ p.0.round ∷ p.0.delay ∷ p.1.now) }
    ensures none { IfNone result (length numbers.now < 4) }
{
    match numbers {
        [sender, receiver, round, delay, rest @ ..] => {
            let own = OwnDelay {
                sender: *sender,
                receiver: *receiver,
                round: *round,
                delay: *delay,
            };
            Some((own, rest))
        }
        _ => None,
    }
}

/// The stops whose numbers these are, two of each.
fn stops_of(alloc: Global, numbers: &[u32]) -> Result<Vec<NodeStop>, WordsFault>
    ensures ok { IfOk result (λ stops. numbers_of_stops stops.items ≡ numbers.now) }
    ensures err { IfErr result (IsNoStops numbers.now) }
{
    let mut stops = Vec::new(alloc);
    let mut rest = numbers;
    while let Some((stop, more)) = first_stop(rest) {
        stops.push(stop)?;
        rest = more;
    }
    if rest.is_empty() {
        Ok(stops)
    } else {
        Err(WordsFault::Change)
    }
}

/// The delays whose numbers these are, four of each.
fn delays_of(alloc: Global, numbers: &[u32]) -> Result<Vec<OwnDelay>, WordsFault>
    ensures ok { IfOk result (λ delays. numbers_of_delays delays.items ≡ numbers.now) }
    ensures err { IfErr result (IsNoDelays numbers.now) }
{
    let mut delays = Vec::new(alloc);
    let mut rest = numbers;
    while let Some((delay, more)) = first_delay(rest) {
        delays.push(delay)?;
        rest = more;
    }
    if rest.is_empty() {
        Ok(delays)
    } else {
        Err(WordsFault::Change)
    }
}

/// What each `--stop` says.
fn given_stops(alloc: Global, matches: &ArgMatches<'_>) -> Result<Vec<NodeStop>, WordsFault>
    ensures ok { IfOk result (λ stops.
        GivesStops (rows_of (found_of matches.now)) stops.items) }
    ensures err { IfErr result (FailsByStops (rows_of (found_of matches.now))) }
{
    let numbers = values_of(alloc, matches, "stop")?;
    stops_of(alloc, &numbers)
}

/// What each `--delay` says.
fn given_delays(alloc: Global, matches: &ArgMatches<'_>) -> Result<Vec<OwnDelay>, WordsFault>
    ensures ok { IfOk result (λ delays.
        GivesDelays (rows_of (found_of matches.now)) delays.items) }
    ensures err { IfErr result (FailsByDelays (rows_of (found_of matches.now))) }
{
    let numbers = values_of(alloc, matches, "delay")?;
    delays_of(alloc, &numbers)
}

/// What the options say.
pub(crate) fn changes_of<'a>(
    alloc: Global,
    matches: &ArgMatches<'a>,
) -> Result<Changes<'a>, WordsFault>
    ensures ok { IfOk result (GivesChanges (rows_of (found_of matches.now))) }
    ensures err { IfErr result (FailsByChanges (rows_of (found_of matches.now))) }
{
    Ok(Changes {
        stops: given_stops(alloc, matches)?,
        omissions: optional_text(matches, "omissions"),
        delays: given_delays(alloc, matches)?,
    })
}
