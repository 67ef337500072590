//! Room that is made before anything is recorded.
ghost use Rattle.std.specs.Prelude.{◌≡◌, ◌<◌, OnOk, vec_capacity, vec_len};

use run_events::NoMemory;

/// Makes room for one item more. Mostly there is some, so that is tested first.
#[inline(always)]
pub fn room<T>(items: &mut Vec<T>) -> Result<(), NoMemory>
    ensures room { OnOk result (vec_len items.new < vec_capacity items.new) }
    ensures same { items.new.items ≡ items.old.items }
{
    if items.len() < items.capacity() {
        return Ok(());
    }
    items.reserve(1)?;
    Ok(())
}
