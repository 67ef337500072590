//! Laws of all plans; the functions do nothing.
ghost use Rattle.slot_plans.specs.Plan.{ClearRoundsLast};
ghost use Rattle.slot_plans.specs.Slot.{StepsHaveOneSlot};

/// A step has one slot only, under each plan.
pub fn one_slot()
    ensures { StepsHaveOneSlot }
{}

/// The rounds after a clear one are clear, under each plan.
pub fn clear_rounds_last()
    ensures { ClearRoundsLast }
{}
