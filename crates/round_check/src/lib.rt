//! Programs whose names and types are checked.
#![tactic(auto)]

mod causes;
mod checked;
mod condition;
mod fault;
mod laws;
mod names;
mod packing;
mod rules;
mod shapes;
mod spelling;
mod types;
mod typing;

pub use checked::{Checked, check};
pub use fault::CheckFault;
pub use laws::names_have_one_meaning;
