//! One node, act by act.
use crate::acts::Answers;
use crate::reading::vars;
use crate::showing::{show_number, show_value, show_vars};
use round_check::Checked;
use round_lang::{Message, Shape, Value, Vars};
use round_meaning::{
    Env, Heard, Received, Scope, Setup, decision_of, end_of, eval, finish_of, initial_of, is_inbox,
    send_of, take_of,
};
use std::alloc::Global;
use test_kit::{Fault, cut, number};

/// A node of a program with its state, and what it has heard in its round.
#[derive(Drop)]
pub struct Node<'a> {
    program: &'a Checked,
    setup: &'a Setup,
    me: u32,
    state: Vars,
    inbox: Vec<Received>,
}

/// An inbox, lent.
fn lent<'a>(alloc: Global, inbox: &'a [Received]) -> Result<Vec<Heard<'a>>, Fault> {
    let mut heard = Vec::new(alloc);
    for received in inbox {
        heard.push(Heard::new(received.from, &received.message))?;
    }
    Ok(heard)
}

impl<'a> Node<'a> {
    /// The node at its start.
    pub fn new(
        alloc: Global,
        program: &'a Checked,
        setup: &'a Setup,
        me: u32,
    ) -> Result<Node<'a>, Fault> {
        let state = initial_of(alloc, program, setup, me)?;
        Ok(Node {
            program,
            setup,
            me,
            state,
            inbox: Vec::new(alloc),
        })
    }

    fn start(&mut self, alloc: Global) -> Result<(), Fault> {
        self.state = initial_of(alloc, self.program, self.setup, self.me)?;
        Ok(())
    }

    /// A message comes, as `1 set 2` from node 1.
    fn hear(&mut self, alloc: Global, text: &str) -> Result<(), Fault> {
        let (from, text) = cut(text);
        let from = number(from)?;
        let message = vars(alloc, text, &Shape::empty())?;
        self.inbox.push(Received { from, message })?;
        Ok(())
    }

    /// The state after a round.
    fn ended(&self, alloc: Global, round: u32) -> Result<Vars, Fault> {
        let inbox = lent(alloc, self.inbox.as_slice())?;
        let inbox = inbox.as_slice();
        if !is_inbox(inbox) {
            return Err(Fault::Unreadable);
        }
        let state = end_of(
            alloc,
            self.program,
            self.setup,
            round,
            self.me,
            inbox,
            &self.state,
        )?;
        Ok(state)
    }

    /// The end of a round.
    fn end(&mut self, alloc: Global, round: u32) -> Result<(), Fault> {
        self.state = self.ended(alloc, round)?;
        self.inbox = Vec::new(alloc);
        Ok(())
    }

    /// The end of a round, message by message.
    fn end_in_steps(&mut self, alloc: Global, round: u32) -> Result<(), Fault> {
        let mut state = self.state.copy(alloc)?;
        for received in &self.inbox {
            let heard = Heard::new(received.from, &received.message);
            state = take_of(
                alloc,
                self.program,
                self.setup,
                round,
                self.me,
                &heard,
                &state,
            )?;
        }
        self.state = finish_of(alloc, self.program, self.setup, round, self.me, &state)?;
        self.inbox = Vec::new(alloc);
        Ok(())
    }

    /// What is sent in a round, as `2 0` to node 0 in round 2.
    fn show_sent(&self, alloc: Global, text: &str, out: &mut String) -> Result<(), Fault> {
        let (round, dest) = cut(text);
        let (round, dest) = (number(round)?, number(dest)?);
        let state = &self.state;
        match send_of(alloc, self.program, self.setup, round, state, self.me, dest)? {
            Some(message) => show_vars(out, &message),
            None => Ok(out.push_str("none")?),
        }
    }

    /// What the condition for sending to a node is in round 1.
    fn condition(&self, alloc: Global, dest: u32, message: &Message) -> Result<Value, Fault> {
        let program = self.program.program();
        let Some(block) = program.blocks().first() else {
            return Err(Fault::Unreadable);
        };
        let env = Env {
            values: program.values(),
            me: self.me,
            nodes: self.setup.nodes,
            faults: self.setup.faults,
            round: 1,
            phase: 1,
            dest,
            from: 0,
            variables: program.variables(),
            vars: &self.state,
            fields: &[],
            message,
            bound: &Scope::Outermost,
        };
        Ok(eval(alloc, block.condition().expr(), &env)?)
    }

    fn show_condition(&self, alloc: Global, text: &str, out: &mut String) -> Result<(), Fault> {
        let message = vars(alloc, "num 0", &Shape::empty())?;
        let value = self.condition(alloc, number(text)?, &message)?;
        Ok(show_value(out, &value)?)
    }

    fn show_decision(&self, out: &mut String) -> Result<(), Fault> {
        Ok(show_number(out, decision_of(self.program, &self.state))?)
    }
}

impl<'a> Answers for Node<'a> {
    fn answer(&mut self, alloc: Global, act: &str, out: &mut String) -> Result<(), Fault> {
        let (word, rest) = cut(act);
        match word {
            "decide" => return self.show_decision(out),
            "send" => return self.show_sent(alloc, rest, out),
            "when" => return self.show_condition(alloc, rest, out),
            "start" => self.start(alloc)?,
            "be" => self.state = vars(alloc, rest, &Shape::empty())?,
            "hear" => self.hear(alloc, rest)?,
            "end" => self.end(alloc, number(rest)?)?,
            "steps" => self.end_in_steps(alloc, number(rest)?)?,
            _ => return Err(Fault::Unreadable),
        }
        show_vars(out, &self.state)
    }
}
