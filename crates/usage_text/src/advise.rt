//! What is said of a refused line.

use crate::forms::{count_advice, word_advice};
use crate::kinds::Advice;
use crate::ranges::{number_advice, range_advice};
use crate::room::{node_count, room_advice};
use crate::words::{line_of, rest_behind, text_of, word};
use nrt_base::LineNo;
use script_text::LineFault;
use text_query::QueryFault;

/// What is said of the first byte of a line that is not printable.
fn byte_advice(line: &[u8]) -> Option<Advice<'static>> {
    let at = line.iter().position(|byte| !matches!(*byte, b' '..=b'~'))?;
    let byte = *line.get(at)?;
    let (name, wanted) = match byte {
        b'\r' => (" (carriage return)", "lines end with a line feed alone"),
        b'\t' => (" (tab)", "words are parted by spaces"),
        0xef if at == 0 => (" (byte order mark)", "a script is ASCII alone"),
        _ => ("", "a script is ASCII alone, from the space to `~`"),
    };
    let column = at.saturating_add(1);
    Some(Advice::Byte {
        byte,
        name,
        column,
        wanted,
    })
}

/// What is said of a query that is refused, where it goes on behind the place of its fault.
fn query_advice(fault: QueryFault, query: &str) -> Option<Advice<'_>> {
    let QueryFault::Syntax(at) = fault else {
        return None;
    };
    let rest = text_of(query.as_bytes().get(at..).unwrap_or(&[]));
    if rest.is_empty() {
        None
    } else {
        Some(Advice::Query { fault, rest })
    }
}

/// What a message says of the line of a script that is refused for a cause, where more can be said than the cause says.
pub fn advice(script: &[u8], number: LineNo, cause: LineFault) -> Option<Advice<'_>> {
    let line = line_of(script, number);
    let text = text_of(line);
    match cause {
        LineFault::NoNodes => None,
        LineFault::Word => Some(word_advice(text)),
        LineFault::Count => Some(count_advice(text)),
        LineFault::Range => match word(text, 0) {
            "nodes" => number_advice("nodes", word(text, 1), 2, 16),
            "workers" => number_advice("workers", word(text, 1), 0, 8),
            _ => room_advice(script, number).or(range_advice(node_count(script), text)),
        },
        LineFault::Query(fault) => query_advice(fault, rest_behind(text)),
        LineFault::Text => byte_advice(line),
    }
}
