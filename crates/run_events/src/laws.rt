//! A law of the limits; the function does nothing.
ghost use Rattle.run_events.specs.Laws.{LimitsAreDefined};

/// The limits that the code reads are those of the definitions.
pub fn limits_are_defined()
    ensures { LimitsAreDefined }
{}
