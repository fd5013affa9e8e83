//! The words of a line, each behind a space.

ghost use Rattle.std.specs.Prelude.{◌≡◌, ◌++◌, ◌∷◌, OnOk, map};
ghost use Rattle.std.specs.Fmt.{decimal};
ghost use Rattle.report_text.specs.Texts.{AddsWords, with_numbers, hit_text};

use documents::Hit;
use file_names::FileName;
use nrt_base::NoMemory;
use std::alloc::Global;

pub fn push_number(out: &mut Vec<u8>, alloc: Global, number: u64) -> Result<(), NoMemory>
    ensures { OnOk result (out.new.items ≡ out.old.items ++ decimal number) }
{
    out.extend_from_slice(format!(in alloc; "{number}")?.as_bytes())
}

pub fn push_word(out: &mut Vec<u8>, word: &[u8]) -> Result<(), NoMemory>
    ensures { OnOk result (out.new.items ≡ out.old.items ++ 32 ∷ word.now) }
{
    out.push(b' ')?;
    out.extend_from_slice(word)
}

fn push_numbers(out: &mut Vec<u8>, alloc: Global, numbers: &[u64]) -> Result<(), NoMemory>
    ensures { OnOk result (AddsWords out.old.items out.new.items (map decimal numbers.now)) }
{
    for number in numbers {
        out.push(b' ')?;
        push_number(out, alloc, *number)?;
    }
    Ok(())
}

pub fn push_with_numbers(
    out: &mut Vec<u8>,
    alloc: Global,
    word: &[u8],
    numbers: &[u64],
) -> Result<(), NoMemory>
    ensures { OnOk result (AddsWords out.old.items out.new.items
        (with_numbers word.now numbers.now)) }
{
    push_word(out, word)?;
    push_numbers(out, alloc, numbers)
}

fn push_hit(out: &mut Vec<u8>, alloc: Global, hit: &Hit) -> Result<(), NoMemory>
    ensures { OnOk result (out.new.items ≡ out.old.items ++ 32 ∷ hit_text hit.now) }
{
    out.push(b' ')?;
    push_number(out, alloc, u64::from(hit.rank))?;
    out.push(b':')?;
    out.extend_from_slice(hit.key.as_slice())
}

pub fn push_hits(out: &mut Vec<u8>, alloc: Global, hits: &[Hit]) -> Result<(), NoMemory>
    ensures { OnOk result (AddsWords out.old.items out.new.items (map hit_text hits.now)) }
{
    for hit in hits {
        push_hit(out, alloc, hit)?;
    }
    Ok(())
}

pub fn push_names(out: &mut Vec<u8>, names: &[FileName]) -> Result<(), NoMemory>
    ensures { OnOk result (AddsWords out.old.items out.new.items names.now) }
{
    for name in names {
        push_word(out, name.as_slice())?;
    }
    Ok(())
}
