//! The commands of the program, over any desk of files and any writers.
#![tactic(auto)]

mod asking;
mod changes;
mod desk;
mod drawing;
mod explained;
mod exploring;
mod forms;
mod idle;
mod limits;
mod lockstep;
mod memory_desk;
mod omitting;
mod outcome;
mod part_refusal;
mod parts;
mod refusal;
mod run;
mod showing;
mod sources;
mod texts;
mod threads;
mod trace_fault;
mod traces;
mod written;

pub use desk::{Desk, DeskFault};
pub use explained::{Terms, explained_run, judged_run};
pub use idle::{IdleTicks, PacedSchedule};
pub use limits::limits_agree;
pub use lockstep::{Pacing, lockstep_schedule};
pub use memory_desk::{MemoryDesk, MemoryFile};
pub use omitting::{realised_schedule, rounds_omitting};
pub use outcome::Outcome;
pub use part_refusal::PartRefusal;
pub use parts::put_together;
pub use refusal::Refusal;
pub use round_explorer::{Progress, Unwatched, Watch};
pub use run::{run_words, serve};
pub use schedule_text::{SourceFault, TextSource};
pub use threads::{ThreadRun, explained_threads};
pub use trace_fault::TraceFault;
pub use written::Written;
