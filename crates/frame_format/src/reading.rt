//! Where the parts of a header stand.
ghost use Rattle.std.specs.Prelude.{◌≡◌, ◌≤◌, length, drop};
ghost use Rattle.frame_format.specs.Places.{copy_at, from_at, head_at, round_at, to_at, version_at};

use crate::version::FrameVersion;
use byteorder::{BigEndian, ByteOrder};

/// The version that a header names: any byte but 2 counts as version 1.
pub fn version_of(bytes: &[u8]) -> FrameVersion
    ensures { result ≡ version_at bytes.now }
{
    match bytes.get(1) {
        Some(2) => FrameVersion::V2,
        _ => FrameVersion::V1,
    }
}

/// The sender that a header names.
pub fn from_of(bytes: &[u8]) -> u32
    requires { 12 ≤ length bytes.now }
    ensures { result ≡ from_at bytes.now }
{
    u32::from(bytes[2])
}

/// The receiver that a header names.
pub fn to_of(bytes: &[u8]) -> u32
    requires { 12 ≤ length bytes.now }
    ensures { result ≡ to_at bytes.now }
{
    u32::from(bytes[3])
}

/// The round that a header names.
pub fn round_of(bytes: &[u8]) -> u32
    requires { 12 ≤ length bytes.now }
    ensures { result ≡ round_at bytes.now }
{
    BigEndian::read_u32(&bytes[4..])
}

/// The copy that a header names, 0 in version 1.
pub fn copy_of(bytes: &[u8]) -> u32
    requires { head_at bytes.now ≤ length bytes.now }
    ensures { result ≡ copy_at bytes.now }
{
    match version_of(bytes) {
        FrameVersion::V1 => 0,
        FrameVersion::V2 => u32::from(bytes[12]),
    }
}

/// The bytes after the header.
pub fn fields_in(bytes: &[u8]) -> &[u8]
    requires { head_at bytes.now ≤ length bytes.now }
    ensures { result.now ≡ drop (head_at bytes.now) bytes.now }
{
    &bytes[version_of(bytes).header_size()..]
}
