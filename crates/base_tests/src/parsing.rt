//! Queries that are read, and texts that are refused.

use documents::Query;
use nrt_base::List;
use std::alloc::{AllocError, Global};
use std::test::Fail;
use text_query::{QueryFault, parse_query};

// A query as a text, with each operator in parentheses.
#[cycle(show)]
fn show(out: &mut Vec<u8>, query: &Query) -> Result<(), AllocError> {
    match query {
        Query::Word(word) => out.extend_from_slice(word.as_slice()),
        Query::Phrase(words) => {
            let mut before: &[u8] = b"\"";
            for word in words.as_slice() {
                out.extend_from_slice(before)?;
                out.extend_from_slice(word.as_slice())?;
                before = b" ";
            }
            out.extend_from_slice(b"\"")
        }
        Query::All(parts) => show_parts(out, parts, b" AND "),
        Query::Any(parts) => show_parts(out, parts, b" OR "),
        Query::Not(part) => {
            out.extend_from_slice(b"(NOT ")?;
            show(out, part.as_ref())?;
            out.extend_from_slice(b")")
        }
    }
}

#[cycle(show)]
fn show_parts(out: &mut Vec<u8>, parts: &List<Query>, operator: &[u8]) -> Result<(), AllocError> {
    let mut before: &[u8] = b"(";
    for part in parts.as_slice() {
        out.extend_from_slice(before)?;
        show(out, part)?;
        before = operator;
    }
    out.extend_from_slice(b")")
}

// What is answered to a text, as a text.
fn answer(alloc: Global, text: &[u8]) -> Result<String, AllocError> {
    match parse_query(alloc, text) {
        Ok(query) => {
            let mut out = Vec::new(alloc);
            show(&mut out, &query)?;
            String::from_utf8_lossy(alloc, &out)
        }
        Err(fault) => format!(in alloc; "{fault:?}"),
    }
}

#[test]
fn answers(rt: HostRuntime) -> Result<(), Fail> {
    for (text, want) in [
        ("", "Empty"),
        ("fox AND", "Syntax(7)"),
        ("a b", "Syntax(2)"),
        ("a AND \" -\"", "Syntax(6)"),
        ("a AND ()", "Syntax(7)"),
        ("a)", "Syntax(1)"),
        ("ANDa", "anda"),
        ("\"The Fox\" or", "Syntax(10)"),
        ("a AND b OR c AND NOT Z4", "((a AND b) OR (c AND (NOT z4)))"),
        ("(a OR b) AND \"X\"", "((a OR b) AND x)"),
        ("(a AND b) AND c", "((a AND b) AND c)"),
        (
            "NOT NOT \"the  quick-Fox\"",
            "(NOT (NOT \"the quick fox\"))",
        ),
    ] {
        let answer = answer(rt.alloc(), text.as_bytes())?;
        assert_eq!(rt; answer.as_str(), want, "at {text}");
    }
    Ok(())
}

// A text so many times, one in the middle, and one behind so many times.
fn piled(
    alloc: Global,
    before: (usize, &str),
    middle: &str,
    behind: (usize, &str),
) -> Result<Vec<u8>, AllocError> {
    let mut text = Vec::new(alloc);
    for _ in 0..before.0 {
        text.extend_from_slice(before.1.as_bytes())?;
    }
    text.extend_from_slice(middle.as_bytes())?;
    for _ in 0..behind.0 {
        text.extend_from_slice(behind.1.as_bytes())?;
    }
    Ok(text)
}

#[test]
fn bounds(rt: HostRuntime) -> Result<(), Fail> {
    for (before, middle, behind, want) in [
        ((32, "("), "a", (32, ")"), "a"),
        ((33, "("), "a", (33, ")"), "TooDeep"),
        ((5000, "("), "a OR", (5000, ")"), "Syntax(5004)"),
        ((5000, "NOT "), "a", (0, ""), "TooDeep"),
        ((64, "a OR "), "a", (0, ""), "TooMany"),
        ((4, "NOT "), "(a)", (0, ""), "(NOT (NOT (NOT (NOT a))))"),
    ] {
        let text = piled(rt.alloc(), before, middle, behind)?;
        let answer = answer(rt.alloc(), &text)?;
        assert_eq!(rt; answer.as_str(), want, "at {middle}");
    }
    Ok(())
}

// Each front of a longer query: a letter says what is answered, and the places of the faults are added up.
#[test]
fn fronts_of_queries(rt: HostRuntime) -> Result<(), Fail> {
    for (text, want, want_places) in [
        (
            "quick AND brown OR NOT (lazy AND \"red dog\")",
            "ekkkkkksssskkkkkkssskksssssssssssssssssssssk",
            717,
        ),
        (
            "((a OR b) AND (c OR d)) OR NOT NOT e",
            "esssssssssssssssssssssskkssskksskkssk",
            455,
        ),
        (
            "  spaced   AND  (  out OR   wide )  ",
            "eeekkkkkkkkksssssssssssssssssssssskkk",
            491,
        ),
        (
            "a OR (b AND (c OR (d AND (e OR (f AND g)))))",
            "ekksssssssssssssssssssssssssssssssssssssssssk",
            931,
        ),
    ] {
        let mut answers = Vec::new(rt.alloc());
        let mut places = 0u64;
        for end in 0..text.len() + 1 {
            let letter = match parse_query(rt.alloc(), &text.as_bytes()[..end]) {
                Ok(_) => b'k',
                Err(QueryFault::Empty) => b'e',
                Err(QueryFault::Syntax(at)) => {
                    places = places.saturating_add(at as u64);
                    b's'
                }
                Err(_) => b'?',
            };
            answers.push(letter)?;
        }
        assert_eq!(rt; answers.as_slice(), want.as_bytes(), "in {text}");
        assert_eq!(rt; places, want_places, "in {text}");
    }
    Ok(())
}
