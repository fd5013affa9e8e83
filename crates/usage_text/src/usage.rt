//! Help, version, and what is wrong with words that are no command, by the commands of the program as `clap` has them.

use clap::builder::ValueParser;
use clap::error::ErrorKind;
use clap::{Arg, Command};
use std::alloc::{AllocError, Global};
use std::convert::AsStr;

const VERSION: &str = "0.1.0";

const ABOUT: &str = "Near-real-time segment replication as in Lucene, every step of it proved.\n\
    It runs a script of puts, publishes, copies, searches and crashes over a\n\
    cluster of nodes, and reports what happened.";

const USAGE: &str = "nrt run < SCRIPT\n\
    \x20      nrt load N\n\
    \x20      nrt image N < SCRIPT\n\
    \x20      nrt send N < SCRIPT\n\
    \x20      nrt check < IMAGE\n\
    \x20      nrt frames < STREAM\n\
    \x20      nrt judge < SCRIPT_AND_REPORT\n\
    \x20      nrt picture [svg] < SCRIPT";

const NOTES: &str = "EXAMPLE of a script:\n\
    \x20   nodes 2\n\
    \x20   1 put a Quick fox\n\
    \x20   1 publish\n\
    \x20   1 copy 2\n\
    \x20   1 search 2 fox\n\
    A script has two nodes or more, and a line for each step, behind the number of\n\
    the client that does it.\n\
    \n\
    EXIT STATUS:\n\
    \x20   0   done\n\
    \x20   2   the words are no command\n\
    \x20   3   a line of the script is refused\n\
    \x20   4   standard input cannot be read\n\
    \x20   5   standard output cannot be written\n\
    \x20   6   out of memory\n\
    \x20   7   the input has more than 16,777,216 bytes\n\
    \x20   8   check: something is wrong with the directory\n\
    \x20   9   check: the input is no image of a directory\n\
    \x20   10  frames: the stream is bad\n\
    \x20   11  judge: the report is not that of a legal history\n\
    \x20   12  image, send: the script has fewer nodes\n\
    \x20   13  send: no copy to that node can begin";

/// The word that may stand behind `picture`.
const FORMS: &[&str] = &["svg"];

const NUMBERS: &str = "a number is decimal, without a sign and without leading zeros";

/// What stands behind a command's name.
enum Behind {
    Nothing,

    /// A number from 1 to this, and what it counts.
    Number(u64, &'static str),

    /// The word `svg`, or nothing.
    Form,
}

/// A command of the program.
struct Row {
    name: &'static str,
    usage: &'static str,
    about: &'static str,
    behind: Behind,
}

const ROWS: &[Row] = &[
    Row {
        name: "run",
        usage: "nrt run < SCRIPT",
        about: "Run the script on standard input; write its report",
        behind: Behind::Nothing,
    },
    Row {
        name: "load",
        usage: "nrt load N",
        about: "Run the generated script of N documents, 1 to 10000; write its totals",
        behind: Behind::Number(10000, "how many documents"),
    },
    Row {
        name: "image",
        usage: "nrt image N < SCRIPT",
        about: "Run the script on standard input; write the image of the directory of node N",
        behind: Behind::Number(16, "which node"),
    },
    Row {
        name: "send",
        usage: "nrt send N < SCRIPT",
        about: "Run the script on standard input; write the frames that a copy to node N takes",
        behind: Behind::Number(16, "which node"),
    },
    Row {
        name: "check",
        usage: "nrt check < IMAGE",
        about: "Check the image of a directory on standard input",
        behind: Behind::Nothing,
    },
    Row {
        name: "frames",
        usage: "nrt frames < STREAM",
        about: "Tell the messages of a stream of replication frames on standard input",
        behind: Behind::Nothing,
    },
    Row {
        name: "judge",
        usage: "nrt judge < SCRIPT_AND_REPORT",
        about: "Judge a report: whether it is that of a legal history of its script",
        behind: Behind::Nothing,
    },
    Row {
        name: "picture",
        usage: "nrt picture [svg] < SCRIPT",
        about: "Run the script on standard input, or judge the report behind it; write a picture, or a drawing (svg)",
        behind: Behind::Form,
    },
];

/// A row as a command, with what stands behind its name.
fn command<'a>(alloc: Global, row: &'a Row) -> Result<Command<'a>, AllocError> {
    let command = Command::new(alloc, row.name)
        .about(row.about)
        .override_usage(row.usage)
        .disable_help_flag(true);
    let behind = match row.behind {
        Behind::Nothing => return Ok(command),
        Behind::Number(most, help) => Arg::new(alloc, "N")
            .required(true)
            .value_parser(ValueParser::unsigned(1, most))
            .help(help),
        Behind::Form => Arg::new(alloc, "svg").value_parser(FORMS),
    };
    command.arg(behind)
}

/// The program, as a command with its commands.
fn program<'a>(alloc: Global) -> Result<Command<'a>, AllocError> {
    let mut program = Command::new(alloc, "nrt")
        .version(VERSION)
        .about(ABOUT)
        .override_usage(USAGE)
        .after_help(NOTES)
        .subcommand_required(true)
        .disable_help_subcommand(true);
    for row in ROWS {
        program = program.subcommand(command(alloc, row)?)?;
    }
    Ok(program)
}

/// What the program says where this word alone stands behind its name: its help (`-h`, `--help`) or its version (`-V`, `--version`).
/// Any other word asks for nothing.
pub fn asked(alloc: Global, word: &str) -> Result<Option<String>, AllocError> {
    if word == "-h" || word == "--help" {
        Ok(Some(program(alloc)?.render_help()?))
    } else if word == "-V" || word == "--version" {
        Ok(Some(program(alloc)?.render_version()?))
    } else {
        Ok(None)
    }
}

/// What is wrong with words that are no command, the program's name before them.
pub fn mistake<'a, S: AsStr>(alloc: Global, words: &'a [S]) -> Result<String, AllocError> {
    let mut program = program(alloc)?;
    match program.try_get_matches_from_mut(words) {
        Err(error) => error.to_string(alloc),
        Ok(_) => program
            .error(ErrorKind::InvalidValue, NUMBERS)?
            .to_string(alloc),
    }
}
