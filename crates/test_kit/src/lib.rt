//! What the test programs share: why there is no answer, how they end, the words, parts and numbers
//! of texts, the setups and the sets of nodes that these give, and the library's programs by name.
#![tactic(auto)]

mod ending;
mod fault;
mod programs;
mod reading;
mod setups;

pub use ending::end;
pub use fault::Fault;
pub use programs::offered;
pub use reading::{comma_numbers, cut, cut_pair, number, numbers, texts};
pub use setups::{nodes, setup};
