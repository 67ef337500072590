//! What a run is told by: its limits, its events and the names of its messages, also in few bytes,
//! its plan's name, and that there is no memory left.
#![tactic(auto)]

mod event;
mod events;
mod in_flight;
mod laws;
mod limits;
mod name;
mod no_memory;
mod plan_kind;
mod stored_event;
mod stored_name;

pub use event::Event;
pub use events::Events;
pub use in_flight::InFlight;
pub use laws::limits_are_defined;
pub use limits::{MAX_COPY, MAX_DELTA, MAX_NODES, MAX_ROUNDS};
pub use name::Name;
pub use no_memory::NoMemory;
pub use plan_kind::PlanKind;
pub use stored_event::{StoredEvent, events_of};
pub use stored_name::{StoredName, add_names};
