//! What a text says.
ghost use Rattle.std.specs.Prelude.{◌≡◌, ◌≤◌, All, IfOk, map};
ghost use Rattle.std.specs.List.{range_with_len};
ghost use Rattle.run_events.specs.Limits.{max_rounds};
ghost use Rattle.omission_texts.specs.Meaning.{IsFirstUnknown, IsKnown, IsTableOf};
ghost use Rattle.omission_texts.specs.Stops.{steps_of};

use crate::known::first_unknown;
use crate::line::OmissionLine;
use crate::stops::stops_of;
use crate::table::table_of;
use round_meaning::{OmissionTable, Setup};
use run_events::NoMemory;
use slot_plans::Plan;
use std::alloc::Global;
use std::marker::Model;

/// What the lines of a text say, in their order.
#[derive(Drop, Debug)]
pub struct Omissions {
    lines: Vec<OmissionLine>,
}

impl Model for Omissions {
    ghost use Rattle.std.specs.Prelude.{List};
    ghost use Rattle.omission_texts.specs.declared.line.OmissionLine.{OmissionLine as Line};

    ghost Value = { List Line };

    ghost view = { λ o. o.lines.items };
}

impl Omissions {
    pub fn new(lines: Vec<OmissionLine>) -> Omissions
        ensures { result ≡ lines.items }
    {
        Omissions { lines }
    }

    pub fn as_slice(&self) -> &[OmissionLine]
        ensures { result.now ≡ self.now }
    {
        &self.lines
    }

    /// The place, from 0, of the first line that names a node or a round which the run hasn't, or a
    /// range whose first round comes after its last.
    pub fn unknown_line(&self, setup: &Setup) -> Option<usize>
        ensures { IsFirstUnknown setup.now self.now result }
    {
        first_unknown(&self.lines, setup)
    }

    /// The table of the messages of the run that the lines omit. A node or a round that the run
    /// hasn't adds nothing to it.
    pub fn table(&self, alloc: Global, setup: &Setup) -> Result<OmissionTable, NoMemory>
        requires { setup.now.rounds ≤ max_rounds }
        ensures { IfOk result (IsTableOf setup.now self.now) }
    {
        table_of(alloc, setup, &self.lines)
    }

    /// How many steps each node takes: all of the run, or if a line has it crash, those before the
    /// round in which it first does so and the sends of that round.
    pub fn stops<P: Plan>(
        &self,
        alloc: Global,
        setup: &Setup,
        plan: P,
    ) -> Result<Vec<u32>, NoMemory>
        requires rounds { setup.now.rounds ≤ max_rounds }
        requires known { All (IsKnown setup.now) self.now }
        ensures { IfOk result (λ stops. stops.items
            ≡ map (steps_of (P.nodes plan) (P.start plan) setup.now self.now)
            (range_with_len 0 setup.now.nodes)) }
    {
        stops_of(alloc, setup, &self.lines, plan)
    }
}
