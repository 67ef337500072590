//! One node, act by act.
use crate::both::Both;
use crate::machine::{ended, sent, started};
use crate::reading::{inbox, vars};
use crate::showing::show_both;
use round_lang::Vars;
use round_meaning::{Heard, Received, Setup, end_of, initial_of, is_inbox, send_of};
use std::alloc::Global;
use step_code::StepProgram;
use test_kit::{Fault, cut, number};

/// A node of a program.
#[derive(Clone, Copy)]
pub struct Node<'a> {
    pub alloc: Global,
    pub code: &'a StepProgram,
    pub setup: &'a Setup,
    pub me: u32,
}

/// An inbox, lent.
fn lent<'a>(alloc: Global, inbox: &'a [Received]) -> Result<Vec<Heard<'a>>, Fault> {
    let mut heard = Vec::new(alloc);
    for received in inbox {
        heard.push(Heard::new(received.from, &received.message))?;
    }
    Ok(heard)
}

impl<'a> Node<'a> {
    /// The initial state.
    fn start(&self) -> Result<Both, Fault> {
        let Node {
            alloc,
            code,
            setup,
            me,
        } = *self;
        Ok(Both {
            code: Some(started(alloc, code, setup, me)?),
            evaluated: Some(initial_of(alloc, code.program(), setup, me)?),
        })
    }

    /// What is sent in a round to a node, in a state.
    fn send(&self, round: u32, dest: u32, state: &Vars) -> Result<Both, Fault> {
        let Node {
            alloc,
            code,
            setup,
            me,
        } = *self;
        let program = code.program();
        Ok(Both {
            code: sent(alloc, code, setup, round, state, me, dest)?,
            evaluated: send_of(alloc, program, setup, round, state, me, dest)?,
        })
    }

    /// The state after a round.
    fn end(&self, round: u32, state: &Vars, inbox: &[Received]) -> Result<Both, Fault> {
        let Node {
            alloc,
            code,
            setup,
            me,
        } = *self;
        let program = code.program();
        let heard = lent(alloc, inbox)?;
        if !is_inbox(&heard) {
            return Err(Fault::Unreadable);
        }
        Ok(Both {
            code: Some(ended(alloc, code, setup, round, me, inbox, state)?),
            evaluated: Some(end_of(alloc, program, setup, round, me, &heard, state)?),
        })
    }

    /// What is sent, as `2 0 num 1` to node 0 in round 2 in the state of a 1.
    fn send_in(&self, text: &str) -> Result<Both, Fault> {
        let (round, text) = cut(text);
        let (dest, state) = cut(text);
        self.send(number(round)?, number(dest)?, &vars(self.alloc, state)?)
    }

    /// The state after a round, as `2 num 1; 0 set 3` after round 2 from the state of a 1, with the
    /// message of {0, 1} from node 0.
    fn end_in(&self, text: &str) -> Result<Both, Fault> {
        let (round, text) = cut(text);
        let (state, messages) = text.split_once(';').unwrap_or((text, ""));
        let state = vars(self.alloc, state)?;
        let inbox = inbox(self.alloc, messages)?;
        self.end(number(round)?, &state, &inbox)
    }

    /// Writes the answer to an act.
    pub fn answer(&self, act: &str, out: &mut String) -> Result<(), Fault> {
        let (word, rest) = cut(act);
        match word {
            "start" => show_both(out, &self.start()?),
            "send" => show_both(out, &self.send_in(rest)?),
            "end" => show_both(out, &self.end_in(rest)?),
            "words" => Ok(write!(out, "{}", self.code.words())?),
            _ => Err(Fault::Unreadable),
        }
    }
}
