//! The lines of a script, and the words of a line.

use nrt_base::LineNo;
use std::str;

/// The line of a script with this number; empty where there is none.
pub fn line_of(script: &[u8], number: LineNo) -> &[u8] {
    let before = number.0.saturating_sub(1);
    let line = script.split(|byte| *byte == b'\n').nth(before as usize);
    line.unwrap_or(&[])
}

/// Bytes as text; empty where they are none.
pub fn text_of(bytes: &[u8]) -> &str {
    str::from_utf8(bytes).unwrap_or("")
}

/// The word of a line at this place, from 0; empty where there is none.
pub fn word(line: &str, place: usize) -> &str {
    let mut words = line.split(' ').filter(|word| !word.is_empty());
    words.nth(place).unwrap_or("")
}

/// What a line has behind its first three words, without the spaces around it.
pub fn rest_behind(line: &str) -> &str {
    let mut rest = line.trim_matches(' ');
    for _ in 0..3 {
        rest = match rest.split_once(' ') {
            Some((_, behind)) => behind.trim_matches(' '),
            None => "",
        };
    }
    rest
}

/// Whether a line is a statement: it has more than spaces, and does not begin with `#`.
pub fn is_statement(line: &[u8]) -> bool {
    !line.starts_with(b"#") && line.iter().any(|byte| *byte != b' ')
}

/// Whether a line begins with the number of a lane.
pub fn is_of_lane(line: &str) -> bool {
    word(line, 0).bytes().all(|byte| byte.is_ascii_digit())
}
