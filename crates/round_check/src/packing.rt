//! Numbers as bytes, in which two lists of numbers are compared many at a time.
ghost use Rattle.std.specs.Prelude.{◌≡◌, ◌++◌, IfOk, OnOk};
ghost use Rattle.round_check.specs.Spelling.{number_bytes, packed};

use run_events::NoMemory;
use std::alloc::Global;

/// From this number on a number takes five bytes.
const LONG: u32 = 255;

/// Packs numbers.
pub(crate) fn pack(alloc: Global, numbers: &[u32]) -> Result<Vec<u8>, NoMemory>
    ensures { IfOk result (λ bytes. bytes.items ≡ packed numbers.now) }
{
    let mut bytes = Vec::with_capacity(alloc, numbers.len())?;
    for number in numbers {
        put(&mut bytes, *number)?;
    }
    Ok(bytes)
}

fn put(bytes: &mut Vec<u8>, number: u32) -> Result<(), NoMemory>
    ensures { OnOk result (bytes.new.items ≡ bytes.old.items ++ number_bytes number) }
{
    if number < LONG {
        bytes.push(number as u8)?;
        return Ok(());
    }
    bytes.push(LONG as u8)?;
    bytes.push((number % 256) as u8)?;
    bytes.push((number / 256 % 256) as u8)?;
    bytes.push((number / 256 / 256 % 256) as u8)?;
    bytes.push((number / 256 / 256 / 256) as u8)?;
    Ok(())
}
