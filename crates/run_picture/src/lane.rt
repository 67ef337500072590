//! What is drawn on the lane of a node.
use crate::crowd::Crowd;
use crate::moment::Moment;
use crate::step::{Step, Work};
use round_meaning::NodeSet;
use run_events::NoMemory;
use std::alloc::Global;

/// A round of a node that is drawn: its first and its last step, and whether that is the one with
/// which the round ends.
#[derive(Clone, Copy)]
pub(crate) struct Band {
    pub round: u32,
    pub first: Moment,
    pub last: Moment,
    pub is_ended: bool,
    /// The nodes whose messages the node missed since they were never sent.
    pub unsent: NodeSet,
}

/// The steps of a node, and its rounds.
#[derive(Drop)]
pub(crate) struct Track {
    pub node: u32,
    /// How many steps and how many receives it took, drawn or not.
    pub count: u64,
    pub receives: usize,
    /// The last step, drawn or not.
    pub last: Option<Moment>,
    pub steps: Vec<Step>,
    pub bands: Vec<Band>,
    pub crowd: Crowd,
}

impl Track {
    pub(crate) fn new(alloc: Global, node: u32) -> Track {
        Track {
            node,
            count: 0,
            receives: 0,
            last: None,
            steps: Vec::new(alloc),
            bands: Vec::new(alloc),
            crowd: Crowd::new(),
        }
    }

    /// Notes the next step.
    pub(crate) fn note(
        &mut self,
        moment: Moment,
        work: Work,
        is_drawn: bool,
    ) -> Result<(), NoMemory> {
        self.count = self.count.saturating_add(1);
        self.last = Some(moment);
        if is_drawn {
            self.steps.push(Step { moment, work })?;
            if let Some(round) = work.round() {
                self.extend_band(round, moment, is_end(work))?;
            }
        }
        Ok(())
    }

    /// The band of a round, if it's drawn.
    pub(crate) fn band(&self, round: u32) -> Option<Band> {
        self.bands.get(self.band_place(round)?).copied()
    }

    /// Notes that a message to the node of this round was never sent by that node.
    pub(crate) fn note_unsent(&mut self, round: u32, from: u32) {
        let Some(place) = self.band_place(round) else {
            return;
        };
        if let Some(band) = self.bands.get_mut(place) {
            band.unsent = band.unsent.with(from);
        }
    }

    /// The place of a round's band, if it has one: there is no gap between the bands.
    fn band_place(&self, round: u32) -> Option<usize> {
        let first = self.bands.first()?.round;
        Some(round.checked_sub(first)? as usize)
    }

    fn extend_band(&mut self, round: u32, moment: Moment, is_ended: bool) -> Result<(), NoMemory> {
        if self.last_round() == Some(round) {
            self.stretch(moment, is_ended);
            return Ok(());
        }
        self.bands.push(Band {
            round,
            first: moment,
            last: moment,
            is_ended,
            unsent: NodeSet::empty(),
        })?;
        Ok(())
    }

    /// The round of the last band.
    fn last_round(&self) -> Option<u32> {
        let band = self.bands.last()?;
        Some(band.round)
    }

    fn stretch(&mut self, moment: Moment, is_ended: bool) {
        if let Some(band) = self.bands.last_mut() {
            band.last = moment;
            band.is_ended = is_ended;
        }
    }
}

/// Whether a step is the last of its round.
fn is_end(work: Work) -> bool {
    match work {
        Work::Receive { round: _, last } => last,
        _ => false,
    }
}
