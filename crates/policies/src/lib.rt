//! The policies of a network: which message in flight it lets go, drops or copies next.
#![tactic(auto)]

mod bounded;
mod faulty;
mod hoard;
mod policy;
mod prompt;
mod script;
mod table;

pub use bounded::Bounded;
pub use faulty::Faulty;
pub use hoard::Hoard;
pub use policy::{Choice, Policy};
pub use prompt::Prompt;
pub use script::Script;
pub use table::Table;
