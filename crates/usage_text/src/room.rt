//! How many nodes and statements a script has.

use crate::kinds::Advice;
use crate::words::{is_statement, text_of, word};
use nrt_base::LineNo;

/// How many nodes a script says that there are.
pub fn node_count(script: &[u8]) -> u64 {
    let mut lines = script.split(|byte| *byte == b'\n');
    match lines.find(|line| is_statement(line)) {
        Some(line) => word(text_of(line), 1).parse().unwrap_or(0),
        None => 0,
    }
}

/// Whether a script has a log.
fn has_log(script: &[u8]) -> bool {
    script
        .split(|byte| *byte == b'\n')
        .filter(|line| is_statement(line))
        .take(3)
        .any(|line| word(text_of(line), 0) == "log")
}

/// What is said of a statement that is one too many in its script, if it is.
pub fn room_advice(script: &[u8], number: LineNo) -> Option<Advice<'static>> {
    let (log, most) = if has_log(script) {
        (" with a log", 10_000)
    } else {
        ("", 200_000)
    };
    let mut statements = 0u64;
    let mut promotions = 0u64;
    for line in script.split(|byte| *byte == b'\n').take(number.0 as usize) {
        if is_statement(line) {
            statements = statements.saturating_add(1);
        }
        if word(text_of(line), 1) == "promote" {
            promotions = promotions.saturating_add(1);
        }
    }
    if statements > most {
        Some(Advice::Statements { log, most })
    } else if !log.is_empty() && promotions > 64 {
        Some(Advice::Promotions)
    } else {
        None
    }
}
