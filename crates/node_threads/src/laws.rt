//! What holds of runs by threads and of the schedules that they make.
ghost use Rattle.std.specs.Prelude.{◌≡◌, ◌<◌, ℕ, [], slice_index_or};
ghost use Rattle.step_book.specs.Agreement.{row};
ghost use Rattle.step_book.specs.Log.{round_of};

use slot_plans::Plan;
use step_journal::Journal;

/// Nothing at run time: two journals of one run with the same events have the same state after each
/// round that is closed in both. So the journal of a run by threads has the states of the one that
/// its trace gives when it's run as a schedule.
pub fn run_again<P: Plan>(journal: &Journal<P>, again: &Journal<P>)
    requires plan { again.now.plan ≡ journal.now.plan }
    requires program { again.now.log.program ≡ journal.now.log.program }
    requires setup { again.now.log.setup ≡ journal.now.log.setup }
    requires trace { again.now.log.trace ≡ journal.now.log.trace }
    ensures states { (i r : ℕ) → i < journal.now.log.setup.nodes → r < round_of journal.now.log i
        → r < round_of again.now.log i → slice_index_or (row again.now.log.rows i) r []
        ≡ slice_index_or (row journal.now.log.rows i) r [] }
{
    journal.agrees();
    again.agrees();
}
