//! Why a text is no query.

ghost use Rattle.std.specs.Prelude.{◌≡◌};
ghost use Rattle.text_query.specs.declared.fault.QueryFault.TheVariants.{Memory};

use nrt_base::NoMemory;
use thiserror::Error;

/// Why a text is not taken for a query.
#[derive(Clone, Copy, Debug, PartialEq, Eq, Error)]
pub enum QueryFault {
    #[error("out of memory")]
    Memory,
    /// The text is empty, or only spaces.
    #[error("the query is empty: a word is wanted")]
    Empty,
    /// The first token with which no query goes on begins at this byte, counted from 0; where a token is missing
    /// at the end, this is the length of the text.
    #[error("the query goes wrong at offset {0}: a word, a phrase in quotes, a parenthesis, or AND, OR or NOT is wanted there")]
    Syntax(usize),
    /// More than 32 parentheses are open at once, or the tree is deeper than 32.
    #[error("the query is nested too deep: at most 32 parentheses may be open at once")]
    TooDeep,
    /// The query has more than 64 words and phrases.
    #[error("the query has too many words and phrases: at most 64")]
    TooMany,
}

impl From<NoMemory> for QueryFault {
    ghost from_gives = { λ _ fault. fault ≡ Memory };

    fn from(_none: NoMemory) -> QueryFault {
        QueryFault::Memory
    }
}
