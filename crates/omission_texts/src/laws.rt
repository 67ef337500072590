//! Laws of the definitions; the functions do nothing.
ghost use Rattle.omission_texts.specs.Readings.{TextsHaveOneReading, TextsHaveReadings};

/// Each text has one reading, and no other.
pub fn one_reading()
    ensures some { TextsHaveReadings }
    ensures one { TextsHaveOneReading }
{}
