//! The lines that a check writes.

ghost use Rattle.std.specs.Prelude.{◌≡◌, ◌++◌, length, IfOk, OnOk};
ghost use Rattle.std.specs.Fmt.{decimal};
ghost use Rattle.std.specs.Option.{option_map};
ghost use Rattle.index_check.specs.Lines.{none_line, commit_line, name_and_number, fault_line};

use crate::fault::CheckFault;
use file_names::FileName;
use nrt_base::{Doc, List, NoMemory};
use segment_infos::Infos;
use std::alloc::Global;

// Puts words and a number in decimal digits at the end.
fn push_words(alloc: Global, out: &mut Vec<u8>, words: &[u8], number: u64) -> Result<(), NoMemory>
    ensures { OnOk result (out.new.items ≡ out.old.items ++ words.now ++ decimal number) }
{
    let digits = number.to_string(alloc)?;
    out.extend_from_slice(words)?;
    out.extend_from_slice(digits.as_bytes())?;
    Ok(())
}

/// The line of a directory without a commit.
pub fn none_line(alloc: Global) -> Result<List<u8>, NoMemory>
    ensures { IfOk result (λ line. line ≡ none_line) }
{
    Ok(List::from_vec(b"check none\n".to_vec(alloc)?))
}

/// The line of a commit.
#[tactic(auto, unfolding(crate::specs::Lines::commit_line))]
pub fn commit_line(
    alloc: Global,
    number: u64,
    infos: &Infos,
    docs: &[Doc],
) -> Result<List<u8>, NoMemory>
    ensures { IfOk result (λ line. line ≡ commit_line number infos.now docs.now) }
{
    let segments = infos.segs.as_slice().len() as u64;
    let mut line = Vec::new(alloc);
    push_words(alloc, &mut line, b"check commit ", number)?;
    push_words(alloc, &mut line, b" version ", infos.version.0)?;
    push_words(alloc, &mut line, b" segments ", segments)?;
    push_words(alloc, &mut line, b" documents ", docs.len() as u64)?;
    line.push(b'\n')?;
    Ok(List::from_vec(line))
}

/// The name of the file that a fault speaks of, and the number of the fault.
pub fn name_and_number(fault: &CheckFault) -> Option<(FileName, u64)>
    ensures { result ≡ name_and_number fault.now }
{
    match fault {
        CheckFault::NoFile(name) => Some((*name, 2)),
        CheckFault::File(name, _) => Some((*name, 3)),
        CheckFault::Disagrees { name, .. } => Some((*name, 4)),
        CheckFault::Postings(name) => Some((*name, 5)),
        CheckFault::TwoRows(name, _) => Some((*name, 6)),
        CheckFault::Memory | CheckFault::Failed | CheckFault::OtherDocs(_) => None,
    }
}

/// The line of a fault.
#[tactic(auto, unfolding(crate::specs::Lines::fault_line))]
pub fn fault_line(alloc: Global, name: &FileName, number: u64) -> Result<List<u8>, NoMemory>
    ensures { IfOk result (λ line. line ≡ fault_line name.now number) }
{
    let mut line = b"check fault ".to_vec(alloc)?;
    line.extend_from_slice(name.as_slice())?;
    push_words(alloc, &mut line, b" ", number)?;
    line.push(b'\n')?;
    Ok(List::from_vec(line))
}
