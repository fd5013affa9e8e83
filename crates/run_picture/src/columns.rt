//! The columns of a row: texts that are padded, what a node is, and the signs of events.

ghost use Rattle.std.specs.Prelude.{◌≡◌, ◌++◌, ◌-◌, replicate, OnOk, IfOk};
ghost use Rattle.std.specs.Fmt.{decimal};
ghost use Rattle.run_picture.specs.Picture.{at_left, at_right, lag_text, role_text, state_text, signed_node, sign_of, sign_at, cell_text, newest_text};

use crate::shown::{Heads, NodeView};
use history_facts::is_at;
use history_rules::Event;
use nrt_base::{NoMemory, NodeNo};
use std::alloc::Global;

/// Puts a number in decimal digits at the end.
pub fn push_number(out: &mut Vec<u8>, alloc: Global, number: u64) -> Result<(), NoMemory>
    ensures { OnOk result (out.new.items ≡ out.old.items ++ decimal number) }
{
    out.extend_from_slice(format!(in alloc; "{number}")?.as_bytes())
}

fn push_spaces(out: &mut Vec<u8>, count: usize) -> Result<(), NoMemory>
    ensures { OnOk result (out.new.items ≡ out.old.items ++ replicate count 32) }
{
    for done in 0..count {
        prove!(done < count);
        out.push(b' ')?;
    }
    Ok(())
}

/// Puts a text at the end, at the left of a column of so many bytes and one.
pub fn push_left(out: &mut Vec<u8>, width: usize, text: &[u8]) -> Result<(), NoMemory>
    ensures { OnOk result (out.new.items ≡ out.old.items ++ at_left width text.now) }
{
    out.extend_from_slice(text)?;
    push_spaces(out, width.saturating_sub(text.len()))?;
    out.push(b' ')?;
    Ok(())
}

/// Puts a text at the end, at the right of a column of so many bytes and one.
pub fn push_right(out: &mut Vec<u8>, width: usize, text: &[u8]) -> Result<(), NoMemory>
    ensures { OnOk result (out.new.items ≡ out.old.items ++ at_right width text.now) }
{
    push_spaces(out, width.saturating_sub(text.len()))?;
    out.extend_from_slice(text)?;
    out.push(b' ')?;
    Ok(())
}

/// Puts how far a version is behind at the end.
fn push_lag(out: &mut Vec<u8>, alloc: Global, lag: u64) -> Result<(), NoMemory>
    ensures { OnOk result (out.new.items ≡ out.old.items ++ lag_text lag) }
{
    if lag == 0 {
        return Ok(());
    }
    out.push(b'-')?;
    push_number(out, alloc, lag)?;
    Ok(())
}

fn role(heads: Heads, view: NodeView) -> &'static [u8]
    ensures { result.now ≡ role_text heads view }
{
    if is_at(heads.primary, view.node) {
        b"P"
    } else {
        b"r"
    }
}

/// Puts what a node is at the end.
pub fn push_state(
    out: &mut Vec<u8>,
    alloc: Global,
    heads: Heads,
    view: NodeView,
) -> Result<(), NoMemory>
    ensures { OnOk result (out.new.items ≡ out.old.items ++ state_text heads view) }
{
    if !view.running {
        return out.extend_from_slice(b"-");
    }
    out.extend_from_slice(role(heads, view))?;
    push_number(out, alloc, view.version.0)?;
    push_lag(out, alloc, heads.newest.0.saturating_sub(view.version.0))
}

/// The node at which an event has its sign, where this is the primary.
pub fn node_of_sign(event: &Event, primary: Option<NodeNo>) -> Option<NodeNo>
    ensures { result ≡ signed_node event.now primary }
{
    match event {
        Event::Published { .. } => primary,
        Event::Copying { n, .. }
        | Event::Switched { n, .. }
        | Event::Opened { n, .. }
        | Event::Asking { n, .. }
        | Event::Answered { n, .. }
        | Event::Closed { n, .. }
        | Event::Committing { n, .. }
        | Event::Committed { n, .. }
        | Event::Crashed { n }
        | Event::Reopened { n, .. }
        | Event::Promoted { n, .. }
        | Event::Fault { n, .. } => Some(*n),
        _ => None,
    }
}

/// The sign of an event.
pub fn sign(event: &Event) -> &'static [u8]
    ensures { result.now ≡ sign_of event.now }
{
    match event {
        Event::Published { .. } | Event::Promoted { .. } => b"*",
        Event::Copying { .. } => b"<",
        Event::Switched { .. } => b"+",
        Event::Opened { t, .. } => { if t.0 == 0 { b"?" } else { b"(" } }
        Event::Asking { .. } => b"?",
        Event::Answered { .. } => b"!",
        Event::Closed { .. } => b")",
        Event::Committing { .. } => b"~",
        Event::Committed { .. } => b"=",
        Event::Crashed { .. } => b"x",
        Event::Reopened { .. } => b"^",
        Event::Fault { .. } => b"%",
        _ => b"",
    }
}

/// The sign of an event in the column of a node.
fn sign_at(event: &Event, heads: Heads, view: NodeView) -> &'static [u8]
    ensures { result.now ≡ sign_at event.now heads view }
{
    if is_at(node_of_sign(event, heads.primary), view.node) {
        sign(event)
    } else {
        b""
    }
}

/// Puts the column of a node at the end.
pub fn push_cell(
    out: &mut Vec<u8>,
    alloc: Global,
    width: usize,
    event: &Event,
    heads: Heads,
    view: NodeView,
) -> Result<(), NoMemory>
    ensures { OnOk result (out.new.items
        ≡ out.old.items ++ cell_text width event.now heads view) }
{
    let mut text = Vec::new(alloc);
    push_state(&mut text, alloc, heads, view)?;
    text.push(b' ')?;
    text.extend_from_slice(sign_at(event, heads, view))?;
    push_left(out, width, text.as_slice())
}

/// Generation and version of the newest point.
pub fn newest(alloc: Global, heads: Heads) -> Result<Vec<u8>, NoMemory>
    ensures { IfOk result (λ text. text.items ≡ newest_text heads) }
{
    let mut text = Vec::new(alloc);
    push_number(&mut text, alloc, heads.generation.0)?;
    text.push(b'.')?;
    push_number(&mut text, alloc, heads.newest.0)?;
    Ok(text)
}
