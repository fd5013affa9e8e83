//! Where the tokens of a text stop being a query.

ghost use Rattle.std.specs.Prelude.{◌≡◌, ◌+◌, ◌<◌, ◌^◌, OnOk, IfErr, count_by};
ghost use Rattle.text_query.specs.Tokens.{kinds_of, is_leaf as is_leaf_lem};
ghost use Rattle.text_query.specs.Syntax.{IsQuery, IsFirstBadPlace};
ghost use Rattle.text_query.specs.States.{state_behind as state_behind_lem};
ghost use Rattle.text_query.specs.Answers.{open_behind, most_open as most_open_lem};

use crate::token::{Placed, Token};

/// What may follow the tokens that were read.
#[derive(Clone, Copy)]
pub struct SyntaxState {
    /// A word, a phrase, `NOT` or `(` follows, and else `AND`, `OR`, `)` or the end.
    pub expects_operand: bool,
    /// How many parentheses are open.
    pub opened: usize,
}

/// The state behind a token, or none where no query goes on with it.
fn state_behind(state: SyntaxState, token: &Token) -> Option<SyntaxState>
    requires { state.opened + 1 < 2 ^ 64 }
    ensures { result ≡ state_behind_lem state token.now }
{
    let SyntaxState {
        expects_operand,
        opened,
    } = state;
    match token {
        Token::Word(_) | Token::Phrase(_) if expects_operand => Some(SyntaxState {
            expects_operand: false,
            opened,
        }),
        Token::Not if expects_operand => Some(state),
        Token::Open if expects_operand => Some(SyntaxState {
            expects_operand: true,
            opened: opened + 1,
        }),
        Token::And | Token::Or if !expects_operand => Some(SyntaxState {
            expects_operand: true,
            opened,
        }),
        Token::Close if !expects_operand && opened > 0 => Some(SyntaxState {
            expects_operand: false,
            opened: opened - 1,
        }),
        _ => None,
    }
}

/// Whether the tokens of a text with this end are those of a query; else the place of the first of them with which
/// no query goes on, or the end where a token is missing.
pub fn check_syntax(tokens: &[Placed], end: usize) -> Result<(), usize>
    ensures query { OnOk result (IsQuery (kinds_of tokens.now)) }
    ensures fault { IfErr result (IsFirstBadPlace tokens.now end) }
{
    let mut state = SyntaxState {
        expects_operand: true,
        opened: 0,
    };
    for placed in tokens {
        let Some(behind) = state_behind(state, &placed.token) else {
            return Err(placed.at);
        };
        state = behind;
    }
    if state.expects_operand || state.opened > 0 {
        return Err(end);
    }
    Ok(())
}

/// The most parentheses that are open at once.
pub fn most_open(tokens: &[Placed]) -> usize
    ensures { result ≡ most_open_lem 0 (kinds_of tokens.now) }
{
    let mut most = 0;
    let mut opened: usize = 0;
    for placed in tokens {
        most = most.max(opened);
        match placed.token {
            Token::Open => opened += 1,
            Token::Close => opened = opened.saturating_sub(1),
            _ => {}
        }
    }
    most.max(opened)
}

/// How many words and phrases there are.
pub fn leaf_count(tokens: &[Placed]) -> usize
    ensures { result ≡ count_by is_leaf_lem (kinds_of tokens.now) }
{
    tokens
        .iter()
        .filter(|placed| matches!(placed.token, Token::Word(_) | Token::Phrase(_)))
        .count()
}
