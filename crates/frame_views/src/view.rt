//! Frames that are read where they lie.
ghost use Rattle.std.specs.Prelude.{◌≡◌, IfOk, IfErr, MatchResult, None, Some};
ghost use Rattle.std.specs.Prelude.{slice_index};
ghost use Rattle.round_lang.specs.Values.{at, flag, num, row, set};
ghost use Rattle.frame_format.specs.Faults.{first_fault};
ghost use Rattle.frame_format.specs.Reading.{frame_at, IsFrame};
ghost use Rattle.frame_format.specs.Spelling.{Spells};
ghost use Rattle.frame_format.specs.declared.frame.Frame.{Frame};

use crate::fields::FieldsView;
use crate::row::RowView;
use frame_format::{
    FrameFault, FrameVersion, Layout, copy_of, fields_in, first_fault, from_of, round_of, to_of,
    version_of,
};
use round_lang::{Kind, ValueSet};
use std::marker::Model;

/// A frame that lies in borrowed bytes. Contracts see the frame that `decode` gives.
#[derive(Drop, Debug)]
pub struct FrameView<'a> {
    bytes: &'a [u8],
    kinds: [Kind; 8],
    count: usize,
}

impl<'a> Model for FrameView<'a> {
    ghost use Rattle.std.specs.Prelude.{take};
    ghost use Rattle.frame_format.specs.declared.frame.Frame.{Frame};
    ghost use Rattle.frame_views.specs.Views.{seen_as, IsSeen};

    ghost Value = { Frame };

    ghost view = { λ a. seen_as a.bytes.now (take a.count a.kinds) };

    ghost invariant = { λ a. IsSeen a.bytes.now (take a.count a.kinds) a.count };
}

impl<'a> FrameView<'a> {
    /// The frame that the bytes spell, or the first fault, as `decode` answers, without memory.
    pub fn parse(layout: &Layout, bytes: &'a [u8]) -> Result<FrameView<'a>, FrameFault>
        ensures found { IfOk result (λ v. Spells layout.now bytes.now v) }
        ensures only { (f : Frame) → Spells layout.now bytes.now f
            → MatchResult result (λ v. v ≡ f) (λ e. ⊥) }
        ensures fault { IfErr result (λ e. first_fault layout.now bytes.now ≡ Some e) }
    {
        match first_fault(layout, bytes) {
            Some(fault) => Err(fault),
            None => Ok(FrameView::over(layout, bytes)),
        }
    }

    /// The frame of bytes that have no fault, which are not looked through again.
    pub fn over(layout: &Layout, bytes: &'a [u8]) -> FrameView<'a>
        requires { IsFrame layout.now bytes.now }
        ensures { result ≡ frame_at layout.now bytes.now }
    {
        let listed = layout.kinds(round_of(bytes));
        let count = listed.len();
        let mut kinds = [Kind::Num; 8];
        kinds[..count].copy_from_slice(listed);
        FrameView {
            bytes,
            kinds,
            count,
        }
    }

    /// The sender.
    pub fn from(&self) -> u32
        ensures { result ≡ self.now.from }
    {
        from_of(self.bytes)
    }

    /// The receiver.
    pub fn to(&self) -> u32
        ensures { result ≡ self.now.to }
    {
        to_of(self.bytes)
    }

    /// The round, from 1.
    pub fn round(&self) -> u32
        ensures { result ≡ self.now.round }
    {
        round_of(self.bytes)
    }

    pub fn version(&self) -> FrameVersion
        ensures { result ≡ self.now.version }
    {
        version_of(self.bytes)
    }

    /// Which copy of its message the frame is.
    pub fn copy(&self) -> u32
        ensures { result ≡ self.now.copy }
    {
        copy_of(self.bytes)
    }

    /// The fields of its message.
    pub fn fields(&self) -> FieldsView<'_, 'a>
        ensures { result ≡ self.now.message }
    {
        FieldsView::over(&self.kinds[..self.count], fields_in(self.bytes))
    }

    /// The number that field `place` is, 0 if it is none.
    pub fn num(&self, place: usize) -> u32
        ensures { result ≡ num (at self.now.message place) }
    {
        self.fields().num(place)
    }

    /// The truth value that field `place` is, false if it is none.
    pub fn flag(&self, place: usize) -> bool
        ensures { result ≡ flag (at self.now.message place) }
    {
        self.fields().flag(place)
    }

    /// The set that field `place` is, the empty one if it is none.
    pub fn set(&self, place: usize) -> ValueSet
        ensures { result.bits ≡ set (at self.now.message place) }
    {
        self.fields().set(place)
    }

    /// The row that field `place` is, one of no entries if it is none.
    pub fn row(&self, place: usize) -> RowView<'a>
        ensures { result ≡ row (at self.now.message place) }
    {
        self.fields().row(place)
    }

    /// The entry of a value in the row that field `place` is, 0 from K on.
    pub fn entry(&self, place: usize, value: u32) -> u32
        ensures { result ≡ slice_index (row (at self.now.message place)) value }
    {
        self.fields().entry(place, value)
    }
}
