//! Laws of the definitions; the functions do nothing.
ghost use Rattle.schedule_text.specs.Readings.{TextsHaveOneReading, TextsHaveReadings};
ghost use Rattle.schedule_text.specs.Texts.{TextsSayOneThing};

/// No text is two schedules, two thread setups or two headers.
pub fn one_meaning()
    ensures { TextsSayOneThing }
{}

/// Each text has one reading of each kind, and no other.
pub fn one_reading()
    ensures some { TextsHaveReadings }
    ensures one { TextsHaveOneReading }
{}
