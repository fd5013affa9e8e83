//! The query that a text spells, or why there is none.

ghost use Rattle.std.specs.Prelude.{◌≡◌, ◌⊎◌, ℕ, List, IfOk, IfErr, IsTrue};
ghost use Rattle.documents.specs.declared.query.Query.{Query};
ghost use Rattle.documents.specs.Matching.{is_well_formed};
ghost use Rattle.text_query.specs.declared.fault.QueryFault.{QueryFault};
ghost use Rattle.text_query.specs.Answers.{is_blank as is_blank_lem, Parses, IsFault, IsQueryAnswer};
ghost use Rattle.text_query.specs.Grammar.{SpellsQuery};

use crate::build::build;
use crate::fault::QueryFault;
use crate::syntax::{check_syntax, leaf_count, most_open};
use crate::token::tokens;
use documents::Query;
use std::alloc::Global;

/// The most parentheses that may be open at once.
const MOST_OPEN: usize = 32;

/// The most words and phrases of a query.
const MOST_LEAVES: usize = 64;

fn is_blank(text: &[u8]) -> bool
    ensures { result ≡ is_blank_lem text.now }
{
    text.iter().all(|b| *b == b' ')
}

/// The answer to a text.
fn answer(alloc: Global, text: &[u8]) -> Result<Query, QueryFault>
    ensures { IsQueryAnswer text.now result }
{
    if is_blank(text) {
        return Err(QueryFault::Empty);
    }
    let tokens = tokens(alloc, text)?;
    if let Err(at) = check_syntax(&tokens, text.len()) {
        return Err(QueryFault::Syntax(at));
    }
    if most_open(&tokens) > MOST_OPEN {
        return Err(QueryFault::TooDeep);
    }
    let leaves = leaf_count(&tokens);
    let Some(query) = build(alloc, tokens)? else {
        return Err(QueryFault::TooDeep);
    };
    if leaves > MOST_LEAVES {
        return Err(QueryFault::TooMany);
    }
    Ok(query)
}

/// The query that a text spells.
///
/// Operands are words of letters and digits, in which capitals do not matter, texts in quotes, which are the word or
/// the phrase of their words, and queries in parentheses. `NOT` binds more closely than `AND`, and `AND` more closely
/// than `OR`; these are operators only in capitals.
pub fn parse_query(alloc: Global, text: &[u8]) -> Result<Query, QueryFault>
    // What is answered.
    ensures query { IfOk result (Parses text.now) }
    ensures well_formed { IfOk result (λ query. IsTrue (is_well_formed query)) }
    ensures fault { IfErr result (λ fault. (fault ≡ QueryFault.Memory) ⊎ IsFault text.now fault) }

    // Each query and each fault is answered, unless memory runs out.
    ensures each_query { (query : Query) → Parses text.now query
        → (result ≡ Err QueryFault.Memory) ⊎ (result ≡ Ok query) }
    ensures each_fault { (fault : QueryFault) → IsFault text.now fault
        → (result ≡ Err QueryFault.Memory) ⊎ (result ≡ Err fault) }
{
    answer(alloc, text)
}

/// A text spells one query at most.
pub fn one_tree()
    ensures { (text : List ℕ) (first second : Query) → SpellsQuery text first
        → SpellsQuery text second → first ≡ second }
{}
