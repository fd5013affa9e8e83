//! The ids of segments.

ghost use Rattle.std.specs.Prelude.{◌≡◌};
ghost use Rattle.seg_reader.specs.Files.{segment_id as id_of_segment};

use byteorder::{BigEndian, ByteOrder};
use nrt_base::SegNo;

/// The id of a segment, which the frames of its files have: its generation and its place there, eight bytes each.
pub fn segment_id(seg: SegNo) -> [u8; 16]
    ensures { result ≡ id_of_segment seg.0 }
{
    let mut id = [0; 16];
    BigEndian::write_u64(&mut id, seg.generation().0);
    BigEndian::write_u64(&mut id[8..], seg.place());
    id
}
