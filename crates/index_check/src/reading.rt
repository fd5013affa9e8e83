//! The image of files, read.

ghost use Rattle.std.specs.Prelude.{◌≡◌, ◌⊎◌, [], List, map, Err, IfOk, IfErr, IsOkAnd, is_ok, if◌then◌else◌, Some, None};
ghost use Rattle.std.specs.Option.{option_map, unwrap_or};
ghost use Rattle.std.specs.Ordering.{nat_cmp};
ghost use Rattle.std.specs.Cmp.Lexicographic.{slice_cmp};
ghost use Rattle.file_names.specs.Names.{is_file_name, is_less};
ghost use Rattle.index_check.specs.Images.{NamedFile, IsImageOf, IsNoImage};
ghost use Rattle.index_check.specs.Reading.{sized_at, image_file_at, image_files_at, held_image};

use body_forms::{string_of, u32_of};
use bytes::Bytes;
use file_names::{FileName, file_name};
use nrt_base::NoMemory;
use std::alloc::Global;
use thiserror::Error;

/// Why there are no files.
#[derive(Clone, Copy, Debug, PartialEq, Eq, Error)]
pub enum ImageFault {
    /// Out of memory.
    #[error("out of memory")]
    Memory,
    /// The bytes are no image.
    #[error("the input is no image of a directory")]
    Body,
}

impl From<NoMemory> for ImageFault {
    ghost use Rattle.index_check.specs.declared.reading.ImageFault.TheVariants.{Memory};

    ghost from_gives = { λ _ fault. fault ≡ Memory };

    fn from(_: NoMemory) -> Self {
        ImageFault::Memory
    }
}

// The bytes behind their length, and what follows.
#[tactic(auto, unfolding(crate::specs::Reading::sized_at))]
fn sized_of(bytes: &[u8]) -> Option<(&[u8], &[u8])>
    ensures { option_map (λ x. (x.0.now, x.1.now)) result ≡ sized_at bytes.now }
{
    let (count, rest) = u32_of(bytes)?;
    if rest.len() < count as usize {
        None
    } else {
        Some(rest.split_at(count as usize))
    }
}

// The name that has these bytes.
fn name_of(bytes: &[u8]) -> Option<FileName>
    ensures { result ≡ (if is_file_name bytes.now then Some bytes.now else None) }
{
    match file_name(bytes) {
        Ok(name) => Some(name),
        Err(_) => None,
    }
}

// Whether a name is above the one before it, where there is one.
fn is_above(name: &FileName, before: &Option<FileName>) -> bool
    ensures { result ≡ is_less (slice_cmp nat_cmp (unwrap_or before.now []) name.now) }
{
    match before {
        Some(before) => before < name,
        None => !name.as_slice().is_empty(),
    }
}

// A file at the front of an image: its name, its bytes, and what follows.
#[derive(Drop)]
struct Front<'a> {
    name: FileName,
    bytes: &'a [u8],
    rest: &'a [u8],
}

// The file at the front, whose name is above the one before it.
#[tactic(auto, unfolding(crate::specs::Reading::image_file_at))]
fn file_of<'a>(before: &Option<FileName>, bytes: &'a [u8]) -> Option<Front<'a>>
    ensures { option_map (λ x. ((x.name, x.bytes.now), x.rest.now)) result
        ≡ image_file_at (unwrap_or before.now []) bytes.now }
{
    let (name, rest) = string_of(bytes)?;
    let (bytes, rest) = sized_of(rest)?;
    let name = name_of(name)?;
    if is_above(&name, before) {
        Some(Front { name, bytes, rest })
    } else {
        None
    }
}

// Puts this many files from the front of the bytes at the end, and answers the bytes after them. Where they are not there,
// or memory runs out, some may have been put.
fn take_files<'a>(
    alloc: Global,
    files: &mut Vec<(FileName, Bytes)>,
    count: u32,
    bytes: &'a [u8],
) -> Result<Option<&'a [u8]>, NoMemory>
    requires { files.old.items ≡ [] }
    ensures { IfOk result (λ rest. option_map (λ r. (files.new.items, r.now)) rest
        ≡ image_files_at count bytes.now) }
{
    let mut rest = bytes;
    let mut before = None;
    for _ in 0..count {
        let Some(file) = file_of(&before, rest) else {
            return Ok(None);
        };
        files.push((file.name, Bytes::copy_from_slice(alloc, file.bytes)?))?;
        before = Some(file.name);
        rest = file.rest;
    }
    Ok(Some(rest))
}

// The files whose image the bytes are.
#[tactic(auto, unfolding(crate::specs::Reading::held_image))]
fn files_in(alloc: Global, bytes: &[u8]) -> Result<Option<Vec<(FileName, Bytes)>>, NoMemory>
    ensures { IfOk result (λ files. option_map (λ v. v.items) files ≡ held_image bytes.now) }
{
    let Some((count, rest)) = u32_of(bytes) else {
        return Ok(None);
    };
    let mut files = Vec::new(alloc);
    match take_files(alloc, &mut files, count, rest)? {
        Some([]) => Ok(Some(files)),
        _ => Ok(None),
    }
}

/// The files whose image the bytes are. Their contents are copied once.
pub fn read_image(alloc: Global, bytes: &[u8]) -> Result<Vec<(FileName, Bytes)>, ImageFault>
    ensures files { IfOk result (λ files. IsImageOf bytes.now files.items) }
    ensures body { result ≡ Err ImageFault.Body → IsNoImage bytes.now }

    // Each of these is answered, unless memory runs out.
    ensures each_image { (files : List NamedFile) → IsImageOf bytes.now files
        → (result ≡ Err ImageFault.Memory) ⊎ IsOkAnd result (λ read. read.items ≡ files) }
    ensures each_body { IsNoImage bytes.now
        → (result ≡ Err ImageFault.Memory) ⊎ (result ≡ Err ImageFault.Body) }
{
    match files_in(alloc, bytes)? {
        Some(files) => Ok(files),
        None => Err(ImageFault::Body),
    }
}
