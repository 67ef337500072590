//! What the messages of a block are made of.
ghost use Rattle.std.specs.Prelude.{◌≡◌, ◌≤◌, length};
ghost use Rattle.frame_format.specs.Formats.{size, width, IsBlock};

use round_lang::{Kind, Shape};
use std::marker::Model;

/// The kinds of a block's fields, and how many bytes they take. Contracts see the kinds.
#[derive(Drop, Debug)]
pub(crate) struct BlockLayout {
    shape: Shape,
    bytes: usize,
}

impl Model for BlockLayout {
    ghost use Rattle.std.specs.Prelude.{List};
    ghost use Rattle.round_lang.specs.declared.kind.Kind.{Kind as OneKind};
    ghost use Rattle.frame_format.specs.Formats.{IsMeasured};

    ghost Value = { List OneKind };

    ghost view = { λ b. b.shape };

    ghost invariant = { λ b. IsMeasured b.shape b.bytes };
}

impl BlockLayout {
    pub(crate) fn new(shape: Shape) -> BlockLayout
        requires { IsBlock shape }
        ensures { result ≡ shape }
    {
        let bytes = size_of(shape.kinds());
        BlockLayout { shape, bytes }
    }

    pub(crate) fn shape(&self) -> &Shape
        ensures value { result.now ≡ self.now }
        ensures block { IsBlock result.now }
    {
        &self.shape
    }

    /// How many bytes the fields take.
    pub(crate) fn size(&self) -> usize
        ensures value { result ≡ size self.now }
        ensures limit { result ≤ 2048 }
    {
        self.bytes
    }
}

/// How many bytes fields of these kinds take.
pub fn size_of(kinds: &[Kind]) -> usize
    requires { size kinds.now ≤ 2048 }
    ensures { result ≡ size kinds.now }
{
    let mut total = 0;
    for kind in kinds {
        total += width(*kind);
    }
    total
}

/// How many bytes a field of a kind takes.
pub fn width(kind: Kind) -> usize
    requires { width kind ≤ 2048 }
    ensures { result ≡ width kind }
{
    match kind {
        Kind::Num => 4,
        Kind::Flag => 1,
        Kind::Set => 8,
        Kind::Row(entries) => 4 * entries,
    }
}
