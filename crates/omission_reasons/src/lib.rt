//! Why the report of a run omits a message: what became of each of its copies; and why an event of
//! the network did nothing.
//!
//! A [`TraceIndex`] is made once for a run. `reason_of` is asked copy by copy, and only of the
//! copies that some message has (`Book::has_copies`); all that it and the calls of `idle` answer is
//! proved. How long a call takes isn't: it looks at the events that name the message alone.
#![tactic(auto)]

mod departure;
mod idle;
mod omission;
mod places;
mod reason;
mod reasoning;
mod receive;
mod trace_index;

pub use departure::made_place;
pub use idle::{Idle, why_not_copied, why_not_let_go};
pub use omission::is_omitted;
pub use reason::Reason;
pub use reasoning::reason_of;
pub use receive::{Receive, first_receive};
pub use trace_index::TraceIndex;
