//! What is said of a refused line of a script.

use nrt_base::LineNo;
use script_text::{LineFault, ScriptFault, parse_script};
use std::alloc::{AllocError, Global};
use std::test::Fail;
use text_query::QueryFault;
use usage_text::advice;

// What is said of the first refused line of a script.
fn told(alloc: Global, script: &[u8]) -> Result<String, AllocError> {
    match parse_script(alloc, script) {
        Err(ScriptFault::BadScript(line, cause)) => match advice(script, line, cause) {
            Some(advice) => advice.to_string(alloc),
            None => cause.to_string(alloc),
        },
        _ => format!(in alloc; "no line is refused"),
    }
}

#[test]
fn headers(rt: HostRuntime) -> Result<(), Fail> {
    for (script, want) in [
        ("", "a script begins with `nodes N`, N from 2 to 16"),
        ("nodes 17", "\"17\" is out of range: nodes takes 2 to 16"),
        ("nodes 02", "\"02\" is out of range: nodes takes 2 to 16"),
        (
            "nodes 2\nworkers 9",
            "\"9\" is out of range: workers takes 0 to 8",
        ),
        (
            "nodes 2 3",
            "a word is missing, or there is one too many: the form is nodes N",
        ),
        (
            "nodes 2\njoin\nworkers 2",
            "\"workers\" is allowed in the second statement alone",
        ),
        (
            "nodes 2\njoin\nlog",
            "\"log\" is allowed behind `nodes` and `workers` alone",
        ),
        (
            "nodes 2\r\n",
            "byte 13 (carriage return) at column 8: lines end with a line feed alone",
        ),
        (
            "nodes\t2",
            "byte 9 (tab) at column 6: words are parted by spaces",
        ),
    ] {
        assert_eq!(rt; told(rt.alloc(), script.as_bytes())?.as_str(), want);
    }
    Ok(())
}

#[test]
fn lines_of_lanes(rt: HostRuntime) -> Result<(), Fail> {
    for (line, want) in [
        ("1 join", "\"join\" stands alone, without a lane"),
        ("publish", "\"publish\" stands behind the number of a lane"),
        ("1 refresh", "unknown word \"refresh\""),
        (
            "1 publish # now",
            "a word is missing, or there is one too many: the form is LANE publish",
        ),
        (
            "1 search 2",
            "a word is missing, or there is one too many: the form is LANE search NODE QUERY",
        ),
        ("9 publish", "lane 9: lanes are 1 to 8"),
        ("1 search 3 fox", "node 3: nodes are 1 to 2"),
        ("1 merge 1", "\"1\" is out of range: merge takes 2 to 16"),
        ("1 drain 0", "\"0\" is out of range: drain takes 1 to 1000"),
        ("1 open 2 0", "\"0\" is out of range: open takes 1 to 9999"),
        (
            "1 drop !",
            "\"!\" is out of range: drop takes letters and digits, at most 64",
        ),
        (
            "1 promote 2 Auto",
            "\"Auto\" is out of range: promote takes auto, or 0 to 18446744073709551615",
        ),
        (
            "1 search 1 fox and dog",
            "the query goes wrong at offset 4: a word, a phrase in quotes, a parenthesis, or AND, OR or NOT is wanted there, not \"and dog\"",
        ),
        (
            "1 put a caf\u{e9}",
            "byte 195 at column 12: a script is ASCII alone, from the space to `~`",
        ),
    ] {
        let mut script = b"nodes 2\n".to_vec(rt.alloc())?;
        script.extend_from_slice(line.as_bytes())?;
        assert_eq!(rt; told(rt.alloc(), &script)?.as_str(), want);
    }
    Ok(())
}

#[test]
fn lengths(rt: HostRuntime) -> Result<(), Fail> {
    let alloc = rt.alloc();
    for (before, count, want) in [
        ("nodes 2\n1 delete ", 65, "the key has 65 bytes, at most 64"),
        (
            "nodes 2\n1 put a ",
            4097,
            "the text has 4097 bytes, at most 4096",
        ),
        (
            "nodes 2\n1 search 2 ",
            4097,
            "the query has 4097 bytes, at most 4096",
        ),
    ] {
        let mut script = before.as_bytes().to_vec(alloc)?;
        for _ in 0..count {
            script.push(b'x')?;
        }
        assert_eq!(rt; told(alloc, &script)?.as_str(), want);
    }
    let mut script = b"nodes 2\nlog\n".to_vec(alloc)?;
    for _ in 0..9_999 {
        script.extend_from_slice(b"join\n")?;
    }
    let many = "a script with a log has at most 10000 statements";
    assert_eq!(rt; told(alloc, &script)?.as_str(), many);
    Ok(())
}

#[test]
fn causes(rt: HostRuntime) -> Result<(), Fail> {
    let alloc = rt.alloc();
    for (cause, want) in [
        (
            LineFault::NoNodes,
            "a script begins with `nodes N`, N from 2 to 16",
        ),
        (
            LineFault::Word,
            "a word is unknown, or is not allowed at its place",
        ),
        (
            LineFault::Count,
            "a word is missing, or there is one too many",
        ),
        (
            LineFault::Range,
            "a number, a key or a text is out of its range, or there are too many statements",
        ),
        (
            LineFault::Query(QueryFault::Empty),
            "the query is empty: a word is wanted",
        ),
        (
            LineFault::Query(QueryFault::TooDeep),
            "the query is nested too deep: at most 32 parentheses may be open at once",
        ),
        (
            LineFault::Query(QueryFault::TooMany),
            "the query has too many words and phrases: at most 64",
        ),
        (
            LineFault::Text,
            "a byte is not printable: ASCII from the space to `~` is wanted",
        ),
    ] {
        assert_eq!(rt; cause.to_string(alloc)?.as_str(), want);
    }
    let fault = ScriptFault::BadScript(LineNo(3), LineFault::Count);
    let line = "line 3: a word is missing, or there is one too many";
    assert_eq!(rt; fault.to_string(alloc)?.as_str(), line);
    let large = "a script has at most 16777216 bytes";
    assert_eq!(rt; ScriptFault::TooLarge.to_string(alloc)?.as_str(), large);
    Ok(())
}
