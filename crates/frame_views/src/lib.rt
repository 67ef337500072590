//! Frames that are read and written where they lie.
#![tactic(auto)]

mod fields;
mod inbox;
mod parts;
mod round;
mod row;
mod view;
mod writing;

pub use fields::FieldsView;
pub use inbox::InboxView;
pub use parts::{FieldMut, FieldsMut, FrameMut, HeaderMut, cut, split_field};
pub use round::{write_copy, write_to_all};
pub use row::RowView;
pub use view::FrameView;
pub use writing::{write_fields, write_frame};
