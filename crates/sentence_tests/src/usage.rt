//! What the program says of itself, and of words that are no command.

use std::alloc::{AllocError, Global};
use std::test::Fail;
use usage_text::{asked, mistake};

// What a help has: each command, and the statuses.
const PARTS: [&str; 13] = [
    "nrt run < SCRIPT",
    "nrt load N",
    "nrt image N < SCRIPT",
    "nrt send N < SCRIPT",
    "nrt check < IMAGE",
    "nrt frames < STREAM",
    "nrt judge < SCRIPT_AND_REPORT",
    "nrt picture [svg] < SCRIPT",
    "EXIT STATUS:\n    0   done\n",
    "\n    10  frames: the stream is bad\n",
    "\n    11  judge: the report is not that of a legal history\n",
    "\n    12  image, send: the script has fewer nodes\n",
    "\n    13  send: no copy to that node can begin\n",
];

#[test]
fn help_and_version(rt: HostRuntime) -> Result<(), Fail> {
    let alloc = rt.alloc();
    for word in ["-h", "--help"] {
        let help = asked(alloc, word)?.ok_or("no help")?;
        for part in PARTS {
            assert!(rt; help.as_str().contains(part), "{word}: {part}");
        }
    }
    for word in ["-V", "--version"] {
        let version = asked(alloc, word)?.ok_or("no version")?;
        assert_eq!(rt; version.as_str(), "nrt 0.1.0\n");
    }
    for word in ["run", "help", "-v", "--Help", ""] {
        assert!(rt; asked(alloc, word)?.is_none());
    }
    Ok(())
}

// The first line that is said of words behind the program's name.
fn first_line(alloc: Global, words: &[&str]) -> Result<String, AllocError> {
    let text = mistake(alloc, words)?;
    String::from_str(alloc, text.as_str().split('\n').next().unwrap_or(""))
}

#[test]
fn mistakes(rt: HostRuntime) -> Result<(), Fail> {
    let rows: &[(&[&str], &str)] = &[
        (
            &["nrt"],
            "error: 'nrt' requires a subcommand but one was not provided",
        ),
        (&["nrt", "rum"], "error: unrecognized subcommand 'rum'"),
        (&["nrt", ""], "error: unrecognized subcommand ''"),
        (&["nrt", "run", "x"], "error: unexpected argument 'x' found"),
        (
            &["nrt", "run", "--help"],
            "error: unexpected argument '--help' found",
        ),
        (
            &["nrt", "--hel"],
            "error: unexpected argument '--hel' found",
        ),
        (
            &["nrt", "load", "abc"],
            "error: invalid value 'abc' for '<N>': invalid digit found in string",
        ),
        (
            &["nrt", "load", "10001"],
            "error: invalid value '10001' for '<N>': 10001 is not in 1..=10000",
        ),
        (
            &["nrt", "load", "007"],
            "error: a number is decimal, without a sign and without leading zeros",
        ),
        (
            &["nrt", "load", "5", "6"],
            "error: unexpected argument '6' found",
        ),
    ];
    for (words, want) in rows {
        assert_eq!(rt; first_line(rt.alloc(), words)?.as_str(), *want);
    }
    let text = mistake(rt.alloc(), &["nrt", "rum"])?;
    assert!(rt; text.as_str().contains("a similar subcommand exists: 'run'"));
    assert!(rt;
        text.as_str().contains(
            "Usage: nrt run < SCRIPT\n       nrt load N\n       nrt image N < SCRIPT\n       nrt send N < SCRIPT\n"
        )
    );
    Ok(())
}
