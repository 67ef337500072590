//! Laws of the definitions; the functions do nothing.
ghost use Rattle.frame_format.specs.Reading.{SpelledIsRead};
ghost use Rattle.frame_format.specs.Spelling.{OneSpelling};

use crate::layout::Layout;

/// No bytes spell two frames, and no frame has two spellings of one version.
pub fn one_spelling(layout: &Layout)
    ensures { OneSpelling layout.now }
{
    layout.lawful();
}

/// Bytes that spell a frame are read as that frame.
pub fn spelled_is_read(layout: &Layout)
    ensures { SpelledIsRead layout.now }
{
    layout.lawful();
}
