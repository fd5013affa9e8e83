//! Files of infos, written.

ghost use Rattle.std.specs.Prelude.{◌≡◌, ◌++◌, IfOk, OnOk};
ghost use Rattle.std.specs.Fmt.{decimal};
ghost use Rattle.body_forms.specs.Numbers.{u64_bytes, string};
ghost use Rattle.segment_infos.specs.Infos.{record_bytes, RecordFits, user_data, infos_body, CanSpell, SpellsInfos, IsInfosFile};

use crate::infos::{Infos, SegRecord};
use body_forms::{push_string, push_u32, push_u64, write_footer, write_index_header};
use byteorder::{BigEndian, ByteOrder};
use bytes::Bytes;
use file_names::{Gen, NoMemory, Version};
use std::alloc::Global;

/// The name of the format in the header.
pub(crate) const NAME: &[u8; 8] = b"NrtInfos";

/// The version of the format.
pub(crate) const VERSION: u32 = 1;

// The id of infos: the generation and the version.
pub(crate) fn id_of(generation: Gen, version: Version) -> [u8; 16]
    ensures { result ≡ u64_bytes generation.0 ++ u64_bytes version.0 }
{
    let mut id = [0; 16];
    BigEndian::write_u64(&mut id, generation.0);
    BigEndian::write_u64(&mut id[8..], version.0);
    id
}

// Puts a number in decimal digits at the end, as a string.
fn push_decimal(alloc: Global, out: &mut Vec<u8>, n: u64) -> Result<(), NoMemory>
    ensures { OnOk result (out.new.items ≡ out.old.items ++ string (decimal n)) }
{
    let digits = n.to_string(alloc)?;
    push_string(out, digits.as_bytes())
}

// Puts the user data at the end.
pub(crate) fn push_user_data(
    alloc: Global,
    out: &mut Vec<u8>,
    generation: Gen,
    version: Version,
) -> Result<(), NoMemory>
    ensures { OnOk result (out.new.items ≡ out.old.items ++ user_data generation.0 version.0) }
{
    push_u32(out, 2)?;
    push_string(out, b"__primaryGen")?;
    push_decimal(alloc, out, generation.0)?;
    push_string(out, b"__version")?;
    push_decimal(alloc, out, version.0)?;
    Ok(())
}

// Puts the record of a segment at the end.
fn push_record(out: &mut Vec<u8>, segment: &SegRecord) -> Result<(), NoMemory>
    ensures bytes { OnOk result (out.new.items ≡ out.old.items ++ record_bytes segment.now) }
    ensures fits { OnOk result (RecordFits segment.now) }
{
    push_u64(out, segment.seg.0)?;
    push_u32(out, segment.rows)?;
    push_u64(out, segment.live_gen)?;
    push_u32(out, segment.live)?;
    Ok(())
}

// Puts the body of infos at the end.
fn push_body(alloc: Global, out: &mut Vec<u8>, infos: &Infos) -> Result<(), NoMemory>
    requires { CanSpell infos.now }
    ensures body { OnOk result (out.new.items ≡ out.old.items ++ infos_body infos.now) }
    ensures spelled { OnOk result (SpellsInfos (infos_body infos.now) infos.now) }
{
    let segs = infos.segs.as_slice();
    push_u64(out, infos.generation.0)?;
    push_u64(out, infos.version.0)?;
    push_u32(out, infos.counter)?;
    push_u32(out, segs.len() as u32)?;
    for segment in segs {
        push_record(out, segment)?;
    }
    push_user_data(alloc, out, infos.generation, infos.version)?;
    Ok(())
}

/// The file of these infos.
pub fn encode(alloc: Global, infos: &Infos) -> Result<Bytes, NoMemory>
    requires { CanSpell infos.now }
    ensures { IfOk result (IsInfosFile infos.now) }
{
    let mut out = Vec::new(alloc);
    let id = id_of(infos.generation, infos.version);
    write_index_header(&mut out, NAME, VERSION, &id, b"")?;
    push_body(alloc, &mut out, infos)?;
    write_footer(&mut out)?;
    Ok(Bytes::from_vec(out)?)
}
