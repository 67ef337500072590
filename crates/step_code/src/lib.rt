//! A program's flat code, and the room of words that it runs in.
#![tactic(auto)]

mod block_code;
mod changes;
mod comparing;
mod emit;
mod fields;
mod instr;
mod joining;
mod layout;
mod names;
mod pieces;
mod program;
mod room;
mod round_code;
mod run;
mod seeking;
mod setwise;
mod single;
mod step;
mod turn;

pub use fields::Fields;
pub use program::{StepProgram, compile};
pub use room::Room;
pub use round_code::RoundCode;
