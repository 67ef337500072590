//! One node of a run in single steps: what it prepares, takes, and ends its rounds with.
#![tactic(auto)]

mod fields;
mod frame_place;
mod held;
mod machine;
mod node;
mod origin;
mod prepared;
mod said;
mod sealed;
mod sealed_view;
mod spoken;
mod state_reader;
mod stored_state;
mod word_bytes;

pub use frame_place::FramePlace;
pub use node::{Finished, Node, ROUNDS_HELD, Taken};
pub use prepared::Prepared;
pub use run_events::{Event, InFlight, MAX_COPY, Name};
pub use sealed::Sealed;
pub use sealed_view::SealedView;
pub use state_reader::{RowReader, StateReader};
pub use stored_state::StoredState;
