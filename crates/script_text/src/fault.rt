//! Why bytes are no script: the line that is refused, and the cause.

ghost use Rattle.std.specs.Prelude.{◌≡◌};
ghost use Rattle.script_text.specs.declared.fault.ScriptFault.TheVariants.{Memory};
ghost use Rattle.script_text.specs.declared.fault.Refusal.TheVariants.{Memory as NotRead};
ghost use Rattle.script_text.specs.Reading.{fault_at_line};

use nrt_base::{LineNo, NoMemory};
use text_query::QueryFault;
use thiserror::Error;

/// Why a line is refused.
#[derive(Clone, Copy, Debug, PartialEq, Eq, Error)]
pub enum LineFault {
    /// The first statement is not `nodes`, or there is none.
    #[error("a script begins with `nodes N`, N from 2 to 16")]
    NoNodes,
    /// A word is not allowed at its place.
    #[error("a word is unknown, or is not allowed at its place")]
    Word,
    /// A word is missing or too many.
    #[error("a word is missing, or there is one too many")]
    Count,
    /// A number, a key or a text is out of its range, or there are too many statements.
    #[error("a number, a key or a text is out of its range, or there are too many statements")]
    Range,
    /// The query is refused.
    #[error(transparent)]
    Query(QueryFault),
    /// A byte of the line is no printable one.
    #[error("a byte is not printable: ASCII from the space to `~` is wanted")]
    Text,
}

/// Why bytes are no script.
#[derive(Clone, Copy, Debug, PartialEq, Eq, Error)]
pub enum ScriptFault {
    /// Want of memory.
    #[error("out of memory")]
    Memory,
    /// This line is the first that is refused, for this cause.
    #[error("line {number}: {1}", number = .0.0)]
    BadScript(LineNo, LineFault),
    /// There are more than 16,777,216 bytes.
    #[error("a script has at most 16777216 bytes")]
    TooLarge,
}

impl From<NoMemory> for ScriptFault {
    ghost from_gives = { λ _ e. e ≡ Memory };

    fn from(_fault: NoMemory) -> ScriptFault {
        ScriptFault::Memory
    }
}

/// Why a statement is not read.
#[derive(Clone, Copy)]
pub enum Refusal {
    /// Want of memory.
    Memory,
    /// The statement is refused for this cause.
    Cause(LineFault),
}

impl From<NoMemory> for Refusal {
    ghost from_gives = { λ _ e. e ≡ NotRead };

    fn from(_fault: NoMemory) -> Refusal {
        Refusal::Memory
    }
}

impl Refusal {
    /// The fault of a script whose line of this number is refused so.
    pub fn on_line(self, number: u32) -> ScriptFault
        ensures { result ≡ fault_at_line number self }
    {
        match self {
            Refusal::Memory => ScriptFault::Memory,
            Refusal::Cause(cause) => ScriptFault::BadScript(LineNo(number), cause),
        }
    }
}
