//! Files of postings, written.

ghost use Rattle.std.specs.Prelude.{◌≡◌, ◌++◌, ◌<◌, ◌≤◌, ◌^◌, List, length, OnOk, IfOk};
ghost use Rattle.body_forms.specs.File.{HasSmallBody};
ghost use Rattle.body_forms.specs.Numbers.{ascending, Ascend};
ghost use Rattle.postings_plain.specs.declared.row.TermRow.{TermRow};
ghost use Rattle.postings_plain.specs.Postings.{format_for, block_count, hit, HitFits, HitsFitFrom, HitsFit, positions, PositionsFit};
ghost use Rattle.postings_plain.specs.Body.{format_wanted};
ghost use Rattle.postings_plain.specs.Inverting.{IsPostingsFileOf};
ghost use Rattle.postings_plain.specs.Gathering.{Gathers, AreFew, GathersSome, AddsRows, AddsBlock, AddsBlocks, AddsHits, AddsEntry, AddsPostings};

use crate::blocks::{BLOCK_ROWS, push_skip, skips_of_rows};
use crate::file::NAME;
use crate::format::Format;
use crate::hits::RowHit;
use crate::inverting::{Found, inverted};
use crate::row::TermRow;
use body_forms::{push_difference, push_end, push_string, push_table, push_vint};
use bytes::Bytes;
use codec_frame::{write_footer, write_index_header};
use nrt_base::NoMemory;
use std::alloc::{AllocError, Global};

/// The file of the postings of these rows: in the second format exactly where they are more than 128. Rows are numbered as
/// they stand in the list, from 0, and positions are places among the words, from 0. A body of 2^32 bytes, 2^32 rows, 2^32
/// words of a row, or more are out of memory.
pub fn encode(alloc: Global, id: &[u8; 16], rows: &[TermRow]) -> Result<Bytes, NoMemory>
    requires { 0 < length rows.now }
    ensures file { IfOk result (IsPostingsFileOf (format_for (length rows.now)) id.now rows.now) }
    ensures small { IfOk result
        (HasSmallBody (format_wanted (format_for (length rows.now)) id.now) id.now) }
{
    encode_in(alloc, Format::of_rows(rows.len()), id, rows)
}

/// The file of the postings of these rows in this format, as `encode` makes it.
pub fn encode_in(
    alloc: Global,
    format: Format,
    id: &[u8; 16],
    rows: &[TermRow],
) -> Result<Bytes, NoMemory>
    requires { 0 < length rows.now }
    ensures file { IfOk result (IsPostingsFileOf format id.now rows.now) }
    ensures small { IfOk result (HasSmallBody (format_wanted format id.now) id.now) }
{
    let found = inverted(alloc, rows)?;
    encode_found(alloc, format, id, &found)
}

/// The file of the postings of rows that were gathered, in this format.
pub fn encode_found(
    alloc: Global,
    format: Format,
    id: &[u8; 16],
    found: &Found<'_>,
) -> Result<Bytes, NoMemory>
    requires { GathersSome found.now.entries }
    ensures file { IfOk result (λ bytes. (rows : List TermRow) → Gathers found.now.entries rows
        → AreFew rows → 0 < length rows → IsPostingsFileOf format id.now rows bytes) }
    ensures small { IfOk result (HasSmallBody (format_wanted format id.now) id.now) }
{
    let mut out = Vec::new(alloc);
    write_index_header(&mut out, NAME, u32::from(format.number()), id, b"")?;
    push_body(alloc, &mut out, format, found)?;
    write_footer(&mut out)?;
    Ok(Bytes::from_vec(out)?)
}

// Puts the body of all that is found at the end.
fn push_body(
    alloc: Global,
    out: &mut Vec<u8>,
    format: Format,
    found: &Found<'_>,
) -> Result<(), NoMemory>
    requires { GathersSome found.now.entries }
    ensures { OnOk result (AddsPostings format found.now out.old.items out.new.items) }
{
    let count = found.len();
    let mut offsets = Vec::new(alloc);
    let mut area = Vec::new(alloc);
    push_end(&mut offsets, &area)?;
    for (term, hits) in found {
        let (field, bytes) = term.parts();
        push_entry(alloc, &mut area, format, field, bytes, hits.as_slice())?;
        push_end(&mut offsets, &area)?;
    }
    push_table(out, count, &offsets, &area)?;
    Ok(())
}

// Puts the entry of a field and a term at the end.
fn push_entry(
    alloc: Global,
    out: &mut Vec<u8>,
    format: Format,
    field: u8,
    term: &[u8],
    hits: &[RowHit],
) -> Result<(), NoMemory>
    requires term { length term.now < 2 ^ 32 }
    requires hits { HitsFit field hits.now }
    ensures { OnOk result (AddsEntry format (field, (term.now, hits.now))
        out.old.items out.new.items) }
{
    out.push(field)?;
    push_string(out, term)?;
    push_hits(alloc, out, format, field, hits)
}

// Puts the hits of a term at the end: how many there are, the skip entries of their blocks, and each.
fn push_hits(
    alloc: Global,
    out: &mut Vec<u8>,
    format: Format,
    field: u8,
    rows: &[RowHit],
) -> Result<(), NoMemory>
    requires { HitsFit field rows.now }
    ensures { OnOk result (AddsHits format field rows.now out.old.items out.new.items) }
{
    let count = rows.len() as u32;
    push_vint(out, count)?;
    push_blocks(alloc, out, field, skips_of_rows(format, count), rows)
}

// Puts hits at the end: the skip entries of so many blocks, and each.
fn push_blocks(
    alloc: Global,
    out: &mut Vec<u8>,
    field: u8,
    blocks: u32,
    rows: &[RowHit],
) -> Result<(), NoMemory>
    requires fit { HitsFitFrom field 0 rows.now }
    requires many { 0 < blocks → blocks ≡ block_count (length rows.now) }
    ensures { OnOk result (AddsBlocks field blocks rows.now out.old.items out.new.items) }
{
    let mut area = Vec::new(alloc);
    let mut left = rows;
    let mut least: u64 = 0;
    for _ in 0..blocks {
        let (block, others) = left.split_at(left.len().min(BLOCK_ROWS as usize));
        let end = push_block(&mut area, out, field, least, block)?;
        left = others;
        least = end;
    }
    out.extend_from_slice(&area)?;
    push_rows(out, field, least, left)?;
    Ok(())
}

// Puts the hits of a block at the end of the area, and its skip entry at the end of `out`. It says which row is one above
// the last of them. A block of 2^32 bytes or more is out of memory.
fn push_block(
    area: &mut Vec<u8>,
    out: &mut Vec<u8>,
    field: u8,
    least: u64,
    block: &[RowHit],
) -> Result<u64, NoMemory>
    requires some { 0 < length block.now }
    requires fit { HitsFitFrom field least block.now }
    requires below { least ≤ 2 ^ 32 }
    ensures { IfOk result (AddsBlock field least block.now area.old.items area.new.items
        out.old.items out.new.items) }
{
    let start = area.len();
    let end = push_rows(area, field, least, block)?;
    let Ok(len) = u32::try_from(area.len() - start) else {
        return Err(AllocError);
    };
    push_skip(out, least, (end - 1) as u32, len)?;
    Ok(end)
}

// Puts hits at the end, whose rows are the least or above, and says which row is one above the last of them.
fn push_rows(out: &mut Vec<u8>, field: u8, least: u64, rows: &[RowHit]) -> Result<u64, NoMemory>
    requires fit { HitsFitFrom field least rows.now }
    requires below { least ≤ 2 ^ 32 }
    ensures { IfOk result (AddsRows field least rows.now out.old.items out.new.items) }
{
    let mut end = least;
    for row in rows {
        push_hit(out, field, end, row)?;
        end = u64::from(row.row()) + 1;
    }
    Ok(end)
}

// Puts a hit at the end, whose row is the least that may come or above.
fn push_hit(out: &mut Vec<u8>, field: u8, least: u64, row: &RowHit) -> Result<(), NoMemory>
    requires { HitFits field least row.now }
    ensures { OnOk result (out.new.items ≡ out.old.items ++ hit field least row.now) }
{
    push_difference(out, least, row.row())?;
    push_positions(out, field, row.places())
}

// Puts the positions in a row at the end: none for a key.
fn push_positions(out: &mut Vec<u8>, field: u8, places: &[u32]) -> Result<(), NoMemory>
    requires { PositionsFit field places.now }
    ensures { OnOk result (out.new.items ≡ out.old.items ++ positions field places.now) }
{
    if field == 0 {
        Ok(())
    } else {
        push_ascending(out, places)
    }
}

// Puts ascending numbers at the end: how many there are, and the differences.
fn push_ascending(out: &mut Vec<u8>, numbers: &[u32]) -> Result<(), NoMemory>
    requires few { length numbers.now < 2 ^ 32 }
    requires ascend { Ascend numbers.now }
    ensures { OnOk result (out.new.items ≡ out.old.items ++ ascending numbers.now) }
{
    push_vint(out, numbers.len() as u32)?;
    let mut least: u64 = 0;
    for number in numbers {
        push_difference(out, least, *number)?;
        least = u64::from(*number) + 1;
    }
    Ok(())
}
