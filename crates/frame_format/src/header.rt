//! Headers as bytes.
ghost use Rattle.std.specs.Prelude.{◌≡◌, ◌≤◌, ◌<◌, length};
ghost use Rattle.run_events.specs.Limits.{max_copy};
ghost use Rattle.byteorder.specs.Endian.{big_bytes};
ghost use Rattle.frame_format.specs.Headers.{header};
ghost use Rattle.frame_format.specs.declared.version.FrameVersion.TheVariants.{V2};

use crate::layout::Layout;
use byteorder::{BigEndian, ByteOrder};

/// Writes a header of version 2 into its 13 bytes.
pub fn write_header(layout: &Layout, from: u32, to: u32, round: u32, copy: u32, out: &mut [u8])
    requires room { length out.old ≡ 13 }
    requires from { from < layout.now.nodes }
    requires to { to < layout.now.nodes }
    requires copy { copy ≤ max_copy }
    ensures { out.new ≡ header layout.now V2 from to round copy }
{
    let nodes = layout.nodes();
    let fields = layout.kinds(round).len();
    let [a, b, c, d] = bytes_of(round);
    let [e, f] = length_bytes(layout.size(round) as u16);
    let position = layout.position(round) as u8;
    out.copy_from_slice(&[
        0x52,
        2,
        from as u8,
        to as u8,
        a,
        b,
        c,
        d,
        position,
        fields as u8,
        e,
        f,
        copy as u8,
    ]);
}

/// A number's four bytes.
pub(crate) fn bytes_of(n: u32) -> [u8; 4]
    ensures { result ≡ big_bytes 4 n }
{
    let mut bytes = [0; 4];
    BigEndian::write_u32(&mut bytes, n);
    bytes
}

/// A length's two bytes.
fn length_bytes(n: u16) -> [u8; 2]
    ensures { result ≡ big_bytes 2 n }
{
    let mut bytes = [0; 2];
    BigEndian::write_u16(&mut bytes, n);
    bytes
}
