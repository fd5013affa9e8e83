//! Which word of a line is out of its range.

use crate::kinds::Advice;
use crate::words::{rest_behind, word};

/// Whether a word is a number from the one to the other, without a leading zero.
fn is_number(word: &str, low: u64, high: u64) -> bool {
    if word.starts_with('+') || (word.len() > 1 && word.starts_with('0')) {
        return false;
    }
    match word.parse::<u64>() {
        Ok(number) => low <= number && number <= high,
        Err(_) => false,
    }
}

/// What is wrong with a number, if anything.
pub fn number_advice<'a>(
    command: &'a str,
    word: &'a str,
    low: u64,
    high: u64,
) -> Option<Advice<'a>> {
    if is_number(word, low, high) {
        None
    } else {
        Some(Advice::Number {
            word,
            command,
            low,
            high,
        })
    }
}

/// What is wrong with the number of a node, if anything.
fn node_advice(nodes: u64, node: &str) -> Option<Advice<'_>> {
    if is_number(node, 1, nodes) {
        None
    } else {
        Some(Advice::Node { node, nodes })
    }
}

/// What is wrong with the length of a part, if anything.
fn length_advice(part: &'static str, text: &str, most: usize) -> Option<Advice<'static>> {
    let len = text.len();
    if len <= most {
        None
    } else {
        Some(Advice::Long { part, len, most })
    }
}

/// What is wrong with a forced version, if anything.
fn force_advice(force: &str) -> Option<Advice<'_>> {
    if force == "auto" || is_number(force, 0, u64::MAX) {
        None
    } else {
        Some(Advice::Force(force))
    }
}

/// What is wrong with a word that is to be dropped, if anything.
fn letters_advice(word: &str) -> Option<Advice<'_>> {
    if word.len() <= 64 && word.bytes().all(|byte| byte.is_ascii_alphanumeric()) {
        None
    } else {
        Some(Advice::Letters(word))
    }
}

/// What is wrong with the numbers of a planned fault, if anything.
fn fault_advice(nodes: u64, line: &str) -> Option<Advice<'_>> {
    let kind = word(line, 2);
    if let Some(advice) = node_advice(nodes, word(line, 3)) {
        return Some(advice);
    }
    if let Some(advice) = number_advice(kind, word(line, 4), 1, 1_000_000) {
        return Some(advice);
    }
    number_advice(kind, word(line, 5), 0, u64::from(u32::MAX))
}

/// Which word of a line of a lane is out of its range, where there are so many nodes.
pub fn range_advice(nodes: u64, line: &str) -> Option<Advice<'_>> {
    let lane = word(line, 0);
    if !is_number(lane, 1, 8) {
        return Some(Advice::Lane(lane));
    }
    let command = word(line, 1);
    let first = word(line, 2);
    let second = word(line, 3);
    let rest = rest_behind(line);
    match command {
        "put" => length_advice("key", first, 64).or(length_advice("text", rest, 4096)),
        "delete" => length_advice("key", first, 64),
        "drop" => letters_advice(first),
        "search" => node_advice(nodes, first).or(length_advice("query", rest, 4096)),
        "ask" => number_advice(command, first, 1, 9999).or(length_advice("query", rest, 4096)),
        "open" => node_advice(nodes, first).or(number_advice(command, second, 1, 9999)),
        "close" => number_advice(command, first, 1, 9999),
        "merge" => number_advice(command, first, 2, 16),
        "drain" => number_advice(command, first, 1, 1000),
        "crash" => node_advice(nodes, first).or(number_advice(command, second, 0, u64::MAX)),
        "promote" => node_advice(nodes, first).or(force_advice(second)),
        "fault" => fault_advice(nodes, line),
        _ => node_advice(nodes, first),
    }
}
