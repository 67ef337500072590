//! Policies by words.
use crate::reading::{choices, names};
use policies::{Bounded, Choice, Faulty, Hoard, Policy, Prompt, Script, Table};
use run_events::InFlight;
use std::alloc::Global;
use test_kit::{Fault, number, numbers};

/// A policy that words name.
#[derive(Drop)]
pub enum Chosen {
    Prompt(Prompt),
    Hoard(Hoard),
    Script(Script),
    Faulty(Faulty),
    Bounded(Bounded),
}

impl Chosen {
    pub fn read(alloc: Global, words: &[String]) -> Result<Chosen, Fault> {
        let [kind, rest @ ..] = words else {
            return Err(Fault::Unreadable);
        };
        match kind.as_str() {
            "prompt" => Ok(Chosen::Prompt(Prompt)),
            "hoard" => Ok(Chosen::Hoard(hoard(rest)?)),
            "script" => Ok(Chosen::Script(Script::new(names(alloc, rest)?))),
            "faulty" => Ok(Chosen::Faulty(Faulty::new(choices(alloc, rest)?))),
            "bounded" => Ok(Chosen::Bounded(bounded(alloc, rest)?)),
            _ => Err(Fault::Unreadable),
        }
    }
}

impl Policy for Chosen {
    ghost use Rattle.std.specs.Prelude.{⊤};

    ghost chooses = { λ _old _now _flight _answer _new. ⊤ };

    fn choose(&mut self, now: u32, flight: &[InFlight]) -> Option<Choice> {
        match self {
            Chosen::Prompt(policy) => policy.choose(now, flight),
            Chosen::Hoard(policy) => policy.choose(now, flight),
            Chosen::Script(policy) => policy.choose(now, flight),
            Chosen::Faulty(policy) => policy.choose(now, flight),
            Chosen::Bounded(policy) => policy.choose(now, flight),
        }
    }
}

fn hoard(words: &[String]) -> Result<Hoard, Fault> {
    let [count] = words else {
        return Err(Fault::Unreadable);
    };
    Ok(Hoard {
        count: number(count.as_str())? as usize,
    })
}

fn bounded(alloc: Global, words: &[String]) -> Result<Bounded, Fault> {
    let [delta, gst, delays @ ..] = words else {
        return Err(Fault::Unreadable);
    };
    Ok(Bounded {
        delta: number(delta.as_str())?,
        gst: number(gst.as_str())?,
        delays: Table::new(numbers(alloc, delays.iter().map(String::as_str))?),
        orders: Table::new(Vec::new(alloc)),
    })
}
