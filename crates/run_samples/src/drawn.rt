//! Rows of missed nodes that are drawn by dice.
ghost use Rattle.std.specs.Prelude.{◌≤◌, true};
ghost use Rattle.run_events.specs.Limits.{max_nodes};
ghost use Rattle.round_meaning.specs.Nodes.{has_node};
ghost use Rattle.round_explorer.specs.Questions.{IsRow};
ghost use Rattle.round_explorer.specs.Searched.{LeavesEnough};

use crate::dice::Dice;
use crate::losses::Losses;
use crate::missing::{Rows, stopped};
use round_explorer::{Case, is_row, may_be_heard, may_be_missed};
use round_meaning::NodeSet;

/// The dice, and how messages are lost in the round that is run.
#[derive(Drop)]
pub(crate) struct Drawn {
    pub(crate) dice: Dice,
    losses: Losses,
}

impl Drawn {
    pub(crate) fn new(seed: u64) -> Drawn {
        Drawn {
            dice: Dice::new(seed),
            losses: Losses::none(),
        }
    }
}

impl Rows for Drawn {
    ghost complete = { true };

    fn begin_round(&mut self, round: u32) {
        if round == 1 {
            self.losses = Losses::new(&mut self.dice);
        }
        self.losses = self.losses.next(&mut self.dice);
    }

    fn row(&mut self, case: &Case<'_>, round: u32, me: u32) -> Option<NodeSet> {
        Some(missed_by(case, round, me, self.losses, &mut self.dice))
    }
}

/// The nodes that are drawn to be missed. Only those that have stopped are missed if the question
/// doesn't allow the draw; it always does, but no contract says that of `drawn_row`.
#[tactic(auto, using(crate::proofs::RowLaws::stopped_are_row))]
fn missed_by(case: &Case<'_>, round: u32, me: u32, losses: Losses, dice: &mut Dice) -> NodeSet
    requires nodes { case.now.setup.nodes ≤ max_nodes }
    requires enough { LeavesEnough case.now }
    requires past { round ≤ case.now.setup.rounds }
    ensures { IsRow case.now.question case.now.setup.nodes case.now.pattern round
        (has_node result.bits) }
{
    let drawn = drawn_row(case, round, me, losses, dice);
    if is_row(case, round, drawn) {
        return drawn;
    }
    stopped(case, round)
}

/// Those that have stopped, and others as messages are lost, while enough are left to be heard.
fn drawn_row(case: &Case<'_>, round: u32, me: u32, losses: Losses, dice: &mut Dice) -> NodeSet
    requires { case.now.setup.nodes ≤ max_nodes }
{
    let nodes = case.setup().nodes;
    let mut missed = stopped(case, round);
    let mut left = nodes
        .saturating_sub(case.question().hears)
        .saturating_sub(missed.bits.count_ones());
    let first = any_node(nodes, dice);
    for turn in 0..nodes {
        let from = turn_of(nodes, first, turn);
        let may = may_be_heard(case, round, from) && may_be_missed(case, round, from);
        if left > 0 && may && losses.hit(from, me, dice) {
            missed = missed.with(from);
            left = left.saturating_sub(1);
        }
    }
    missed
}

/// A node, or 0 if there is none.
fn any_node(nodes: u32, dice: &mut Dice) -> u32 {
    if nodes == 0 { 0 } else { dice.below(nodes) }
}

/// Whose turn it is if the first node has turn 0 and the others follow it in a circle.
fn turn_of(nodes: u32, first: u32, turn: u32) -> u32 {
    let place = first.wrapping_add(turn);
    if place < nodes {
        place
    } else {
        place.wrapping_sub(nodes)
    }
}
