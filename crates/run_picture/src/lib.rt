//! A run as a space-time diagram, in SVG or in an HTML page that holds it.
//!
//! What is drawn is told from the report of the run, from the reasons of its omissions and from the
//! trace and the mail of its book: nothing of these is computed a second time. [`write_picture`]
//! first makes the values that are to be drawn, with their places as whole numbers, and then writes
//! them.
#![tactic(auto)]

mod arrow;
mod arrow_title;
mod columns;
mod crowd;
mod described;
mod drawing;
mod escaped;
mod fault;
mod flag;
mod frame;
mod grid;
mod heading;
mod history;
mod lane;
mod legend;
mod messages;
mod moment;
mod page;
mod path;
mod rows;
mod step;
mod style;
mod svg;
mod svg_arrows;
mod svg_flags;
mod svg_lanes;
mod view;

pub use escaped::Escaped;
pub use fault::PictureFault;
pub use flag::DecisionChange;
pub use frame::Frame;
pub use grid::Point;
pub use heading::Heading;
pub use page::write_picture;
pub use rows::{ReportText, Rows};
pub use svg_flags::write_flag;
pub use view::{RoundRange, View};
