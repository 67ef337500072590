//! The versions of the frame format.
ghost use Rattle.std.specs.Prelude.{◌≡◌};
ghost use Rattle.frame_format.specs.Headers.{header_size, version_byte};

/// A version of the frame format.
#[derive(Clone, Copy, PartialEq, Eq, Default, Debug)]
pub enum FrameVersion {
    /// A frame says nothing of copies, and counts as copy 0.
    V1,
    /// A frame says which copy of its message it is.
    #[default]
    V2,
}

impl FrameVersion {
    /// The number that frames of the version have as their second byte.
    pub fn number(self) -> u8
        ensures { result ≡ version_byte self }
    {
        match self {
            FrameVersion::V1 => 1,
            FrameVersion::V2 => 2,
        }
    }

    /// How many bytes a header of the version takes.
    pub fn header_size(self) -> usize
        ensures { result ≡ header_size self }
    {
        match self {
            FrameVersion::V1 => 12,
            FrameVersion::V2 => 13,
        }
    }
}
