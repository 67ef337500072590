//! Messages that are read where they lie.
ghost use Rattle.std.specs.Prelude.{◌≡◌};

use frame_views::FieldsView;
use round_lang::ValueSet;
use step_code::Fields;

/// The fields of a frame's message.
#[derive(Drop)]
pub(crate) struct FrameFields<'k, 'a> {
    pub(crate) fields: FieldsView<'k, 'a>,
}

impl<'k, 'a> Fields for FrameFields<'k, 'a> {
    ghost values = { λ f. f.fields };

    fn num(&self, field: usize) -> u32 {
        self.fields.num(field)
    }

    fn flag(&self, field: usize) -> bool {
        self.fields.flag(field)
    }

    fn set(&self, field: usize) -> ValueSet {
        self.fields.set(field)
    }

    fn entry(&self, field: usize, entry: u32) -> u32 {
        self.fields.entry(field, entry)
    }
}
