//! The fields of a message, brought into the room.
ghost use Rattle.std.specs.Prelude.{◌≡◌, ◌≤◌, ◌+◌, ◌<◌, ◌^◌, ℕ, List, drop, length, map};
ghost use Rattle.std.specs.Prelude.{slice_index};
ghost use Rattle.std.specs.List.{AllByRecursion};
ghost use Rattle.round_lang.specs.declared.value.Value.{Value};
ghost use Rattle.round_lang.specs.Values.{at, flag, num, row, set};
ghost use Rattle.round_lang.specs.Words.{kind_for, kind_of, IsSmall};
ghost use Rattle.step_code.specs.Code.{size_of};
ghost use Rattle.step_code.specs.Layout.{behind, field_types};
ghost use Rattle.step_code.specs.Relation.{HoldAll, Holds, Keeps};

use round_lang::{Field, Message, Ty, ValueSet};

/// What a message's fields are read from: `values` is the list of values that it stands for.
pub trait Fields {
    ghost values: { Self → List Value };

    /// The number of a field.
    fn num(&self, field: usize) -> u32
        ensures { result ≡ num (at (values self.now) field) };

    /// The truth value of a field.
    fn flag(&self, field: usize) -> bool
        ensures { result ≡ flag (at (values self.now) field) };

    /// The set of a field.
    fn set(&self, field: usize) -> ValueSet
        ensures { result.bits ≡ set (at (values self.now) field) };

    /// An entry of a field's row, 0 past its end.
    fn entry(&self, field: usize, entry: u32) -> u32
        ensures { result ≡ slice_index (row (at (values self.now) field)) entry };
}

impl Fields for Message {
    ghost values = { λ m. m };

    fn num(&self, field: usize) -> u32 {
        self.num(field)
    }

    fn flag(&self, field: usize) -> bool {
        self.flag(field)
    }

    fn set(&self, field: usize) -> ValueSet {
        self.set(field)
    }

    fn entry(&self, field: usize, entry: u32) -> u32 {
        self.entry(field, entry)
    }
}

/// Brings the fields from one on into the room, one behind the other from a place on.
pub(crate) fn load_fields<F: Fields>(
    message: &F,
    field: usize,
    fields: &[Field],
    k: u32,
    place: usize,
    room: &mut [u64],
)
    requires within { behind k place (field_types fields.now) ≤ length room.old }
    requires near { behind k place (field_types fields.now) < 2 ^ 16 }
    requires few { field + length fields.now ≤ 8 }
    requires kinds { map kind_of (drop field (F.values message.now))
        ≡ map (kind_for k) (field_types fields.now) }
    ensures holds { HoldAll k room.new place (field_types fields.now)
        (drop field (F.values message.now)) }
    ensures small { AllByRecursion IsSmall (drop field (F.values message.now)) }
    ensures keeps { Keeps place room.old room.new }
{
    match fields {
        [] => {}
        [first, rest @ ..] => {
            let size = load_field(message, field, first.ty, k, place, room);
            load_fields(message, field + 1, rest, k, place + size, room);
        }
    }
}

/// Brings a field to its place, and says how many words it takes.
fn load_field<F: Fields>(
    message: &F,
    field: usize,
    ty: Ty,
    k: u32,
    place: usize,
    room: &mut [u64],
) -> usize
    requires within { place + size_of k ty ≤ length room.old }
    requires near { place + size_of k ty < 2 ^ 16 }
    requires kind { kind_of (at (F.values message.now) field) ≡ kind_for k ty }
    ensures size { result ≡ size_of k ty }
    ensures holds { Holds k room.new place ty (at (F.values message.now) field) }
    ensures small { IsSmall (at (F.values message.now) field) }
    ensures keeps { Keeps place room.old room.new }
{
    match ty {
        Ty::Num => room[place] = u64::from(message.num(field)),
        Ty::Bool => room[place] = u64::from(message.flag(field)),
        Ty::Set => room[place] = message.set(field).bits,
        Ty::Row => {
            load_row(message, field, k, place, room);
            return k as usize;
        }
    }
    1
}

fn load_row<F: Fields>(message: &F, field: usize, k: u32, place: usize, room: &mut [u64])
    requires within { place + k ≤ length room.old }
    requires near { place + k < 2 ^ 16 }
    ensures entries { (v : ℕ) → v < k → slice_index room.new (place + v)
        ≡ slice_index (row (at (F.values message.now) field)) v }
    ensures small { (v : ℕ) → v < k
        → slice_index (row (at (F.values message.now) field)) v < 2 ^ 32 }
    ensures keeps { Keeps place room.old room.new }
{
    for v in 0..k {
        room[place + v as usize] = u64::from(message.entry(field, v));
    }
}
