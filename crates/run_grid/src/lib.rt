//! A run as a grid of its rounds, in SVG or in an HTML page that holds it.
//!
//! A grid has a lane for each node and a column for each round, and is told from the run's report
//! alone. [`write_grid`] first makes the values that are to be drawn, with their places as whole
//! numbers, and then writes them.
#![tactic(auto)]

mod arrow;
mod cell;
mod clip;
mod columns;
mod described;
mod entries;
mod fault;
mod form;
mod grid;
mod hearing;
mod lane;
mod legend;
mod page;
mod sheet;
mod style;
mod svg_arrows;
mod svg_cells;
mod svg_lanes;
mod text;

pub use fault::GridFault;
pub use page::write_grid;
pub use sheet::GridSheet;
