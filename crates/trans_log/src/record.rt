//! A record of the log, and its file.

ghost use Rattle.std.specs.Prelude.{◌≡◌, ◌++◌, OnOk, IfOk, IfErr};
ghost use Rattle.codec_frame.specs.Checking.{IsChecked};
ghost use Rattle.body_forms.specs.File.{AddsSpelling, IsFileAnswer};
ghost use Rattle.body_forms.specs.declared.read_fault.ReadFault.TheVariants.{File, Memory};
ghost use Rattle.trans_log.specs.Records.{op_bytes, OpFits, SpellsRecord, log_file_id, log_wanted, record_wanted, IsRecordFile};
ghost use Rattle.trans_log.specs.Reading.{op_of};

use crate::parts::{OpParts, fields_of};
use body_forms::{ReadFault, push_string, push_u32, push_u64};
use byteorder::{BigEndian, ByteOrder};
use bytes::Bytes;
use codec_frame::{FileFault, FrameFault, Framed, Want, check, write_footer, write_index_header};
use documents::Op;
use nrt_base::{Doc, Gen, Key, NoMemory, Share, Text, Word};
use std::alloc::{AllocError, Global};

/// The name of the format in the header.
const NAME: &[u8; 6] = b"NrtLog";

/// The version of the format.
const VERSION: u32 = 1;

/// A record: an accepted operation, with the generation in which it was accepted and its number there.
#[derive(Debug, Drop)]
pub struct LogOp {
    pub generation: Gen,
    pub seq: u32,
    pub op: Op,
}

impl Share for LogOp {
    fn share(&self, alloc: Global) -> Result<Self, NoMemory> {
        Ok(LogOp {
            generation: self.generation,
            seq: self.seq,
            op: self.op.share(alloc)?,
        })
    }
}

// The id of the file of a record: the record's number in the log, and zero.
fn id_of(number: u32) -> [u8; 16]
    ensures { result ≡ log_file_id number }
{
    let mut id = [0; 16];
    BigEndian::write_u64(&mut id, u64::from(number));
    BigEndian::write_u64(&mut id[8..], 0);
    id
}

// Puts an operation at the end. A word of 2^32 bytes or more is out of memory.
#[tactic(auto, using(std::proofs::lemmas::List::append_assoc))]
fn push_op(out: &mut Vec<u8>, op: &Op) -> Result<(), NoMemory>
    ensures bytes { OnOk result (out.new.items ≡ out.old.items ++ op_bytes op.now) }
    ensures fits { OnOk result (OpFits op.now) }
{
    match op {
        Op::Put(doc) => {
            out.push(1)?;
            push_string(out, doc.key.as_slice())?;
            push_string(out, doc.text.as_slice())?;
            Ok(())
        }
        Op::Delete(key) => {
            out.push(2)?;
            push_string(out, key.as_slice())?;
            Ok(())
        }
        Op::Drop(word) => {
            let word = word.as_slice();
            if word.len() > u32::MAX as usize {
                return Err(AllocError);
            }
            out.push(3)?;
            push_string(out, word)?;
            Ok(())
        }
    }
}

// Puts the body of a record at the end.
fn push_body(out: &mut Vec<u8>, entry: &LogOp) -> Result<(), NoMemory>
    ensures { OnOk result (AddsSpelling SpellsRecord entry.now out.old.items out.new.items) }
{
    push_u64(out, entry.generation.0)?;
    push_u32(out, entry.seq)?;
    push_op(out, &entry.op)?;
    Ok(())
}

/// The file of a record, which has this number in the log.
pub fn encode(alloc: Global, number: u32, entry: &LogOp) -> Result<Bytes, NoMemory>
    ensures { IfOk result (IsRecordFile number entry.now) }
{
    let mut out = Vec::new(alloc);
    let id = id_of(number);
    write_index_header(&mut out, NAME, VERSION, &id, b"")?;
    push_body(&mut out, entry)?;
    write_footer(&mut out)?;
    Ok(Bytes::from_vec(out)?)
}

// The frame of a file with this id.
fn frame_of(bytes: &[u8], id: &[u8; 16]) -> Result<Framed, FrameFault>
    ensures { IsChecked (log_wanted id.now) bytes.now result }
{
    let want = Want {
        name: NAME,
        min: VERSION,
        max: VERSION,
        id: Some(*id),
        suffix: b"",
    };
    check(bytes, &want)
}

// The operation that has these parts.
fn op_from(alloc: Global, parts: OpParts) -> Result<Op, NoMemory>
    requires { OpFits (op_of parts) }
    ensures { IfOk result (λ op. op ≡ op_of parts.entry) }
{
    match parts {
        OpParts::Put(key, text) => {
            let key = Key::new(alloc, key)?;
            let text = Text::new(alloc, text)?;
            Ok(Op::Put(Doc { key, text }))
        }
        OpParts::Delete(key) => Ok(Op::Delete(Key::new(alloc, key)?)),
        OpParts::Drop(word) => Ok(Op::Drop(Word::new(alloc, word)?)),
    }
}

// The record of a file with this id.
fn read(alloc: Global, id: &[u8; 16], bytes: &[u8]) -> Result<LogOp, ReadFault>
    ensures { IsFileAnswer SpellsRecord (log_wanted id.now) (λ _. id.now) File bytes.now result }
{
    let frame = frame_of(bytes, id)?;
    let Some(fields) = fields_of(&bytes[frame.start..frame.end]) else {
        return Err(ReadFault::File(FileFault::Body));
    };
    let op = op_from(alloc, fields.op)?;
    Ok(LogOp {
        generation: Gen(fields.generation),
        seq: fields.seq,
        op,
    })
}

/// The record that has this number in the log, of its file, which is looked at whole.
pub fn decode(alloc: Global, number: u32, bytes: &[u8]) -> Result<LogOp, ReadFault>
    ensures answer { IsFileAnswer SpellsRecord (record_wanted number) (λ _. log_file_id number) File
        bytes.now result }
    ensures whole { (r : LogOp) → IsRecordFile number r bytes.now
        → IfErr result (λ fault. fault ≡ Memory) }
{
    read(alloc, &id_of(number), bytes)
}
