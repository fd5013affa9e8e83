//! The forms of lines.

use crate::kinds::Advice;
use crate::words::{is_of_lane, word};

/// The form of a line whose command has this name; of a planned fault, whose kind has it.
fn form_of(name: &str) -> &'static str {
    match name {
        "nodes" => "nodes N",
        "workers" => "workers N",
        "log" => "log",
        "join" => "join",
        "put" => "LANE put KEY TEXT",
        "delete" => "LANE delete KEY",
        "drop" => "LANE drop WORD",
        "publish" => "LANE publish",
        "copy" => "LANE copy NODE",
        "settle" => "LANE settle",
        "search" => "LANE search NODE QUERY",
        "open" => "LANE open NODE TICKET",
        "ask" => "LANE ask TICKET QUERY",
        "close" => "LANE close TICKET",
        "commit" => "LANE commit NODE",
        "crash" => "LANE crash NODE PICK",
        "reopen" => "LANE reopen NODE",
        "promote" => "LANE promote NODE VERSION",
        "merge" => "LANE merge COUNT",
        "drain" => "LANE drain COUNT",
        "files" => "LANE files NODE",
        "link" => "LANE fault link NODE NUMBER",
        "damage" => "LANE fault damage NODE NUMBER BYTE",
        "disk" => "LANE fault disk NODE NUMBER",
        "stop" => "LANE fault stop NODE NUMBER",
        "fault" => "LANE fault KIND NODE NUMBER",
        _ => "LANE COMMAND ..",
    }
}

/// What is said of a line with a word too few or too many.
pub fn count_advice(line: &str) -> Advice<'_> {
    let name = if !is_of_lane(line) {
        word(line, 0)
    } else if word(line, 1) == "fault" && !word(line, 2).is_empty() {
        word(line, 2)
    } else {
        word(line, 1)
    };
    Advice::Form(form_of(name))
}

/// What is said of a line with a word that is not allowed at its place.
pub fn word_advice(line: &str) -> Advice<'_> {
    let name = if !is_of_lane(line) {
        word(line, 0)
    } else if word(line, 1) == "fault" {
        word(line, 2)
    } else {
        word(line, 1)
    };
    let place = match name {
        "nodes" => "is allowed in the first statement alone",
        "workers" => "is allowed in the second statement alone",
        "log" => "is allowed behind `nodes` and `workers` alone",
        "join" => "stands alone, without a lane",
        _ => match form_of(name) {
            "LANE COMMAND .." => return Advice::Unknown(name),
            _ => "stands behind the number of a lane",
        },
    };
    Advice::Misplaced { word: name, place }
}
