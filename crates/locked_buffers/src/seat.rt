//! What one node, and what the network, was told.
ghost use Rattle.std.specs.Prelude.{◌≡◌, ◌+◌, ◌-◌, ◌^◌, ◌<◌, ◌∷◌, ◌++◌, []};
ghost use Rattle.std.specs.Prelude.{IfErr, IfOk, OnErr, OnOk};
ghost use Rattle.round_meaning.specs.Rounds.{algorithm_of};
ghost use Rattle.step_book.specs.Buffers.{names_in};
ghost use Rattle.step_book.specs.Log.{end_state};
ghost use Rattle.locked_buffers.specs.Commits.{IsUnnamed};
ghost use Rattle.locked_buffers.specs.Seats.{round_by};

use crate::fault::PostFault;
use crate::names::add_names_of;
use crate::run::Run;
use round_check::Checked;
use round_meaning::{Setup, initial_of, types_are_kept};
use run_events::NoMemory;
use slot_plans::Plan;
use std::alloc::Global;
use std::marker::Model;
use std::sync::Arc;
use step_book::{Mailbox, StoredEvent, Waiting, room};
use step_machine::{Finished, StoredState};

/// What the calls of one node were told: how many of its steps are recorded, the names that each of
/// its receives handed out, and its states after 0, 1, .. closed rounds.
#[derive(Drop)]
pub struct Seat {
    pub(crate) node: u32,
    pub(crate) steps: u64,
    /// What waits in it is of no receive that was recorded.
    pub(crate) handed: Mailbox,
    /// Each is shared with the book.
    pub(crate) states: Vec<Arc<StoredState>>,
}

impl Model for Seat {
    ghost use Rattle.std.specs.Prelude.{◌<◌, length};
    ghost use Rattle.step_book.specs.Log.{states_of};
    ghost use Rattle.locked_buffers.specs.Seats.{Account};

    ghost Value = { Account };

    ghost view = { λ s. record {
      node = s.node;
      steps = s.steps;
      handed = s.handed.handed;
      states = states_of s.states.items;
    } };

    ghost invariant = { λ s. 0 < length s.states.items };
}

impl Seat {
    /// A node that was told nothing but its first state.
    pub fn open(
        alloc: Global,
        program: &Checked,
        setup: &Setup,
        node: u32,
    ) -> Result<Seat, NoMemory>
        requires { node < setup.now.nodes }
        ensures { IfOk result (λ seat. seat ≡ record {
          node = node;
          steps = 0;
          handed = [];
          states = (algorithm_of program.now setup.now).init node ∷ [];
        }) }
    {
        types_are_kept(program);
        let state = initial_of(alloc, program, setup, node)?;
        let stored = StoredState::new(alloc, program.state_shape(), &state)?;
        let mut states = Vec::new(alloc);
        states.push(Arc::new(alloc, stored)?)?;
        Ok(Seat {
            node,
            steps: 0,
            handed: Mailbox::new(alloc),
            states,
        })
    }

    pub fn node(&self) -> u32
        ensures { result ≡ self.now.node }
    {
        self.node
    }

    /// How many steps were recorded.
    pub fn steps(&self) -> u64
        ensures { result ≡ self.now.steps }
    {
        self.steps
    }

    /// Notes a step, which was recorded.
    pub fn note_step(&mut self)
        requires { self.old.steps < 2 ^ 64 - 1 }
        ensures { self.new ≡ record self.old { steps = self.old.steps + 1 } }
    {
        self.steps += 1;
    }

    /// Notes a receive, which was recorded and handed out these frames. Refused as
    /// [`PostFault::Stranger`] if one is of no message of the run.
    pub fn note_receive<P: Plan>(&mut self, run: &Run<P>, frames: &Waiting) -> Result<(), PostFault>
        requires { self.old.steps < 2 ^ 64 - 1 }
        ensures ok { OnOk result (self.new ≡ record self.old {
          steps = self.old.steps + 1;
          handed = self.old.handed ++ names_in frames.now.items ∷ [];
        }) }
        ensures err { OnErr result (self.new ≡ self.old) }
        ensures cause { IfErr result (IsUnnamed run.now frames.now.items) }
    {
        self.handed.forget();
        add_names_of(run, frames, &mut self.handed)?;
        self.handed.hand_out()?;
        self.note_step();
        Ok(())
    }

    /// Notes the end of a round, which was recorded, by the state that it ended with.
    pub fn note_close(&mut self, finished: &Finished<'_>) -> Result<(), NoMemory>
        ensures ok { OnOk result (self.new ≡ record self.old {
          states = self.old.states ++ end_state
              finished.now.node.now ∷ [];
        }) }
        ensures err { OnErr result (self.new ≡ self.old) }
    {
        let state = finished.stored_state()?;
        room(&mut self.states)?;
        self.states.push_reserved(state);
        Ok(())
    }

    /// Its round: the first that isn't closed.
    pub fn round(&self) -> usize
        ensures value { result ≡ round_by self.now }
        ensures low { 0 < result }
    {
        self.states.len()
    }
}

/// What the network's calls were told: its events, and the answer to each.
#[derive(Drop)]
pub struct Relay {
    pub(crate) events: Vec<StoredEvent>,
    pub(crate) answers: Vec<bool>,
}

impl Model for Relay {
    ghost use Rattle.locked_buffers.specs.Seats.{Told};

    ghost Value = { Told };

    ghost view = { λ s. record { events = s.events.items; answers = s.answers.items } };
}

impl Relay {
    /// A network that was told nothing; takes no memory.
    pub(crate) fn new(alloc: Global) -> Relay
        ensures { result ≡ record { events = []; answers = [] } }
    {
        Relay {
            events: Vec::new(alloc),
            answers: Vec::new(alloc),
        }
    }

    /// The network's events, in their order.
    pub fn events(&self) -> &[StoredEvent]
        ensures { result.now ≡ self.now.events }
    {
        &self.events
    }

    /// How each of them was answered: whether a copy was let go, lost or made.
    pub fn answers(&self) -> &[bool]
        ensures { result.now ≡ self.now.answers }
    {
        &self.answers
    }
}
