//! The forms of a grid.
use run_picture::Point;

/// The most nodes and rounds whose messages are drawn as arrows.
const ARROW_NODES: u32 = 5;

const ARROW_ROUNDS: u32 = 24;

/// How many dots stand beside each other at the most, and how far apart they and the ends of arrows
/// are.
const IN_ROW: u32 = 8;

const DOT: u32 = 9;

const ARROW: u32 = 10;

/// The width of a letter in tenths of a pixel, and the height of a line of a cell.
const LETTER: u32 = 67;

pub(crate) const LINE: u32 = 13;

/// What stands for messages.
#[derive(Clone, Copy, PartialEq, Eq, Debug)]
pub(crate) enum Marks {
    Arrows,
    /// A dot in its receiver's cell, at the place of its sender.
    Dots,
}

/// How a grid is drawn: few nodes and rounds with arrows, more with dots.
#[derive(Clone, Copy)]
pub(crate) struct Form {
    pub marks: Marks,
    pub senders: u32,
    /// The most letters of a line in a cell, and the most lines.
    pub letters: u32,
    pub lines: u32,
    /// The width between the cells of two rounds.
    pub gap: u32,
}

impl Form {
    /// The form for so many nodes and rounds.
    pub(crate) fn of(senders: u32, rounds: u32) -> Form {
        let marks = if senders <= ARROW_NODES && rounds <= ARROW_ROUNDS {
            Marks::Arrows
        } else {
            Marks::Dots
        };
        Form {
            marks,
            senders,
            letters: letters_of(rounds),
            lines: lines_of(senders),
            gap: gap_of(marks, senders, rounds),
        }
    }

    /// The width of so many letters.
    pub(crate) fn width_of(letters: u32) -> u32 {
        letters.saturating_mul(LETTER) / 10
    }

    /// How wide a cell is at least: a flag stands on it.
    pub(crate) fn least_width(&self) -> u32 {
        match self.marks {
            Marks::Arrows => 32,
            Marks::Dots => {
                let dots = self.senders.min(IN_ROW).saturating_mul(DOT);
                dots.max(24).saturating_add(8)
            }
        }
    }

    /// How much of a cell's height its dots take.
    pub(crate) fn strip(&self) -> u32 {
        match self.marks {
            Marks::Arrows => 0,
            Marks::Dots => {
                let rows = self.senders.div_ceil(IN_ROW);
                rows.saturating_mul(DOT).saturating_add(3)
            }
        }
    }

    /// The height of a cell with so many lines.
    pub(crate) fn height(&self, lines: u32) -> u32 {
        let text = lines.saturating_mul(LINE).saturating_add(8);
        match self.marks {
            Marks::Arrows => self
                .senders
                .saturating_mul(ARROW)
                .saturating_add(4)
                .max(text),
            Marks::Dots => text.saturating_add(self.strip()),
        }
    }

    /// The middle of the dot of the sender at this place, in the cell with this upper left corner.
    pub(crate) fn dot(&self, corner: Point, place: u32) -> Point {
        let right = (place % IN_ROW).saturating_mul(DOT);
        let down = (place / IN_ROW).saturating_mul(DOT);
        Point {
            x: corner.x.saturating_add(8).saturating_add(right),
            y: corner.y.saturating_add(8).saturating_add(down),
        }
    }

    /// The height at which the arrow of the sender at this place ends, in a cell with this middle.
    pub(crate) fn arrow_end(&self, middle: u32, place: u32) -> u32 {
        let all = self.senders.saturating_sub(1).saturating_mul(ARROW / 2);
        middle
            .saturating_sub(all)
            .saturating_add(place.saturating_mul(ARROW))
    }
}

fn letters_of(rounds: u32) -> u32 {
    match rounds {
        0..=1 => 64,
        2..=3 => 40,
        4..=6 => 28,
        7..=12 => 22,
        13..=24 => 16,
        _ => 12,
    }
}

fn lines_of(nodes: u32) -> u32 {
    match nodes {
        0..=5 => 4,
        6..=8 => 3,
        _ => 2,
    }
}

fn gap_of(marks: Marks, nodes: u32, rounds: u32) -> u32 {
    match marks {
        Marks::Arrows => {
            let narrower = if rounds > 8 { 16 } else { 0 };
            nodes.saturating_mul(10).saturating_add(60 - narrower)
        }
        Marks::Dots => 10,
    }
}
