//! What a grid is asked for.
use omission_explainer::Report;
use run_picture::{RoundRange, View};

/// The most rounds of a grid.
const MAX_ROUNDS_SHOWN: u32 = 60;

/// A title, how many rounds the run may have, which part of it is shown, and whether the grid takes
/// the place of a diagram of single steps, for which the run is too long.
///
/// A grid has 60 rounds at the most, the first ones of those that are asked for. With no range it
/// ends with the first round that no node closed.
#[derive(Clone, Copy)]
pub struct GridSheet<'a> {
    pub title: &'a str,
    pub rounds: u32,
    pub view: View,
    pub is_instead: bool,
}

impl GridSheet<'_> {
    /// The rounds that the grid of this report has.
    pub(crate) fn range(&self, report: &Report) -> RoundRange {
        let first = self.view.first_round();
        RoundRange {
            first,
            last: self
                .last_asked(report)
                .min(first.saturating_add(MAX_ROUNDS_SHOWN - 1)),
        }
    }

    /// Whether rounds that were asked for are left out.
    pub(crate) fn is_cut(&self, report: &Report) -> bool {
        self.range(report).last < self.last_asked(report)
    }

    /// The view with the rounds that are shown, if these aren't all.
    pub(crate) fn shown(&self, report: &Report) -> View {
        let rounds = if self.view.rounds.is_some() || self.is_cut(report) {
            Some(self.range(report))
        } else {
            None
        };
        View {
            rounds,
            ..self.view
        }
    }

    fn last_asked(&self, report: &Report) -> u32 {
        match self.view.rounds {
            Some(rounds) => rounds.last.min(self.rounds),
            None => self.rounds.min(first_unclosed(report)),
        }
    }
}

/// The first round that no node closed, if the number of a round can be as large.
fn first_unclosed(report: &Report) -> u32 {
    let mut last = 0;
    for row in report.rows.as_slice() {
        last = row.round.max(last);
    }
    last.saturating_add(1)
}
