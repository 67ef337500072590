//! How the words of a value are read.
ghost use Rattle.std.specs.Prelude.{◌≡◌};
ghost use Rattle.round_lang.specs.Words.{size, kind_for};

use crate::expr::Ty;

/// How the words of a value are read: a row takes a word for each of its entries, any other value
/// one.
#[derive(Clone, Copy, PartialEq, Eq, Default, Debug)]
pub enum Kind {
    #[default]
    Num,
    Flag,
    Set,
    Row(usize),
}

impl Kind {
    /// The kind of the values of a type, if a row has so many entries.
    pub fn of(ty: Ty, entries: u32) -> Kind
        ensures { result ≡ kind_for entries ty }
    {
        match ty {
            Ty::Num => Kind::Num,
            Ty::Bool => Kind::Flag,
            Ty::Set => Kind::Set,
            Ty::Row => Kind::Row(entries as usize),
        }
    }

    /// How many words a value of this kind takes.
    pub fn size(self) -> usize
        ensures { result ≡ size self }
    {
        match self {
            Kind::Row(entries) => entries,
            _ => 1,
        }
    }
}
