//! The shapes of a drawing.

ghost use Rattle.std.specs.Prelude.{◌≡◌, ◌++◌, OnOk};
ghost use Rattle.std.specs.Fmt.{decimal};
ghost use Rattle.run_drawing.specs.Shapes.{escaped_byte, escaped, place_text, size_text, level_text, box_text, line_text, word_text, mark_text};

use nrt_base::NoMemory;
use std::alloc::Global;

fn push_escaped_byte(out: &mut Vec<u8>, b: u8) -> Result<(), NoMemory>
    ensures { OnOk result (out.new.items ≡ out.old.items ++ escaped_byte b) }
{
    if b == b'&' {
        out.extend_from_slice(b"&amp;")?;
    } else if b == b'<' {
        out.extend_from_slice(b"&lt;")?;
    } else {
        out.push(b)?;
    }
    Ok(())
}

/// Puts a text at the end, where `&` and `<` have a meaning of their own.
pub fn push_escaped(out: &mut Vec<u8>, text: &[u8]) -> Result<(), NoMemory>
    ensures { OnOk result (out.new.items ≡ out.old.items ++ escaped text.now) }
{
    for b in text {
        push_escaped_byte(out, *b)?;
    }
    Ok(())
}

/// Puts a text and a number behind it at the end.
pub fn push_with(
    out: &mut Vec<u8>,
    alloc: Global,
    text: &[u8],
    number: u128,
) -> Result<(), NoMemory>
    ensures { OnOk result (out.new.items ≡ out.old.items ++ (text.now ++ decimal number)) }
{
    out.extend_from_slice(text)?;
    out.extend_from_slice(format!(in alloc; "{number}")?.as_bytes())
}

#[tactic(auto, unfolding(crate::specs::Shapes::place_text))]
fn push_place(out: &mut Vec<u8>, alloc: Global, x: u128, y: u128) -> Result<(), NoMemory>
    ensures { OnOk result (out.new.items ≡ out.old.items ++ place_text x y) }
{
    push_with(out, alloc, b"' x='", x)?;
    push_with(out, alloc, b"' y='", y)
}

#[tactic(auto, unfolding(crate::specs::Shapes::size_text))]
fn push_size(out: &mut Vec<u8>, alloc: Global, width: u128, height: u128) -> Result<(), NoMemory>
    ensures { OnOk result (out.new.items ≡ out.old.items ++ size_text width height) }
{
    push_with(out, alloc, b"' width='", width)?;
    push_with(out, alloc, b"' height='", height)
}

#[tactic(auto, unfolding(crate::specs::Shapes::level_text))]
fn push_level(
    out: &mut Vec<u8>,
    alloc: Global,
    x: u128,
    y: u128,
    width: u128,
) -> Result<(), NoMemory>
    ensures { OnOk result (out.new.items ≡ out.old.items ++ level_text x y width) }
{
    push_with(out, alloc, b"' d='M", x)?;
    push_with(out, alloc, b" ", y)?;
    push_with(out, alloc, b"h", width)
}

/// Puts a rectangle at the end.
#[tactic(auto, unfolding(crate::specs::Shapes::box_text))]
pub fn push_box(
    out: &mut Vec<u8>,
    alloc: Global,
    class: &[u8],
    x: u128,
    y: u128,
    width: u128,
    height: u128,
) -> Result<(), NoMemory>
    ensures { OnOk result (out.new.items ≡ out.old.items ++ box_text class.now x y width height) }
{
    out.extend_from_slice(b"<rect class='")?;
    out.extend_from_slice(class)?;
    push_place(out, alloc, x, y)?;
    push_size(out, alloc, width, height)?;
    out.extend_from_slice(b"'/>")
}

/// Puts a level line at the end.
#[tactic(auto, unfolding(crate::specs::Shapes::line_text))]
pub fn push_line(
    out: &mut Vec<u8>,
    alloc: Global,
    class: &[u8],
    x: u128,
    y: u128,
    width: u128,
) -> Result<(), NoMemory>
    ensures { OnOk result (out.new.items ≡ out.old.items ++ line_text class.now x y width) }
{
    out.extend_from_slice(b"<path class='")?;
    out.extend_from_slice(class)?;
    push_level(out, alloc, x, y, width)?;
    out.extend_from_slice(b"'/>")
}

/// Puts words that begin at a place at the end.
#[tactic(auto, unfolding(crate::specs::Shapes::word_text))]
pub fn push_words(
    out: &mut Vec<u8>,
    alloc: Global,
    class: &[u8],
    x: u128,
    y: u128,
    words: &[u8],
) -> Result<(), NoMemory>
    ensures { OnOk result (out.new.items ≡ out.old.items ++ word_text class.now x y words.now) }
{
    out.extend_from_slice(b"<text class='")?;
    out.extend_from_slice(class)?;
    push_place(out, alloc, x, y)?;
    out.extend_from_slice(b"'>")?;
    out.extend_from_slice(words)?;
    out.extend_from_slice(b"</text>")
}

/// Puts a mark at the end: what is told under the pointer, and shapes.
#[tactic(auto, unfolding(crate::specs::Shapes::mark_text))]
pub fn push_mark(out: &mut Vec<u8>, title: &[u8], shapes: &[u8]) -> Result<(), NoMemory>
    ensures { OnOk result (out.new.items ≡ out.old.items ++ mark_text title.now shapes.now) }
{
    out.extend_from_slice(b"<g><title>")?;
    out.extend_from_slice(title)?;
    out.extend_from_slice(b"</title>")?;
    out.extend_from_slice(shapes)?;
    out.extend_from_slice(b"</g>\n")
}
