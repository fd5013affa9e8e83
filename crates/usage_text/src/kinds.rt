//! What is wrong with a refused line.

use text_query::QueryFault;
use thiserror::Error;

/// What a message says of a refused line.
#[derive(Clone, Copy, Debug, Error)]
pub enum Advice<'a> {
    /// No command has this name.
    #[error("unknown word \"{0}\"")]
    Unknown(&'a str),
    /// This word is allowed at another place.
    #[error("\"{word}\" {place}")]
    Misplaced {
        word: &'a str,
        place: &'static str,
    },
    /// The line is to have this form.
    #[error("a word is missing, or there is one too many: the form is {0}")]
    Form(&'static str),
    /// There are too many statements.
    #[error("a script{log} has at most {most} statements")]
    Statements {
        log: &'static str,
        most: u64,
    },
    /// A script with a log promotes too often.
    #[error("a script with a log has at most 64 lines that promote")]
    Promotions,
    /// No lane has this number.
    #[error("lane {0}: lanes are 1 to 8")]
    Lane(&'a str),
    /// No node has this number.
    #[error("node {node}: nodes are 1 to {nodes}")]
    Node {
        node: &'a str,
        nodes: u64,
    },
    /// A number is not in the range of its command.
    #[error("\"{word}\" is out of range: {command} takes {low} to {high}")]
    Number {
        word: &'a str,
        command: &'a str,
        low: u64,
        high: u64,
    },
    /// No version can be forced so.
    #[error("\"{0}\" is out of range: promote takes auto, or 0 to 18446744073709551615")]
    Force(&'a str),
    /// No word is dropped that is written so.
    #[error("\"{0}\" is out of range: drop takes letters and digits, at most 64")]
    Letters(&'a str),
    /// A key, a text or a query is too long.
    #[error("the {part} has {len} bytes, at most {most}")]
    Long {
        part: &'static str,
        len: usize,
        most: usize,
    },
    /// The query is refused, and goes on so from there.
    #[error("{fault}, not \"{rest}\"")]
    Query {
        fault: QueryFault,
        rest: &'a str,
    },
    /// This byte is none of a script.
    #[error("byte {byte}{name} at column {column}: {wanted}")]
    Byte {
        byte: u8,
        name: &'static str,
        column: usize,
        wanted: &'static str,
    },
}
