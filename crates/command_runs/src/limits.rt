//! The limits of the crates below.
ghost use Rattle.command_runs.specs.Limits.{LimitsAreDefined};

use run_events::limits_are_defined;

/// Nothing at run time: the limits that crates read are those of the definitions.
pub fn limits_agree()
    ensures { LimitsAreDefined }
{
    limits_are_defined();
}
