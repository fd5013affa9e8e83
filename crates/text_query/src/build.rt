//! Trees of queries, built from their tokens.

ghost use Rattle.std.specs.Prelude.{◌≡◌, ◌≢◌, ◌+◌, ◌<◌, ◌≤◌, ◌++◌, ◌∷◌, [], length, IfOk, OnOk, MatchOption};
ghost use Rattle.documents.specs.declared.query.Query.{Query};
ghost use Rattle.documents.specs.Matching.{depth_of};
ghost use Rattle.text_query.specs.Depths.{deepest_in};
ghost use Rattle.text_query.specs.Grammar.{all_of, any_of};
ghost use Rattle.text_query.specs.Levels.{negated_of, joined_of, empty_level, with_operand as with_operand_lem, with_or as with_or_lem, level_tree, level_depth, closed_level, levels_of, levels_behind, levels_depth};
ghost use Rattle.text_query.specs.Grammar.{ReadsAs};
ghost use Rattle.text_query.specs.Syntax.{IsQuery};
ghost use Rattle.text_query.specs.Tokens.{kinds_of};

use crate::token::{Placed, Token};
use documents::Query;
use nrt_base::{Boxed, List, NoMemory};
use std::alloc::Global;
use std::marker::Model;

/// The most that a tree is deep.
const DEEPEST: usize = 32;

/// A part of the tree, which is no deeper than a tree may be.
#[derive(Debug, Drop)]
struct Part {
    query: Query,
    depth: usize,
}

impl Model for Part {
    ghost use Rattle.std.specs.Prelude.{◌≡◌, ◌≤◌};
    ghost use Rattle.std.specs.Coded.{codes};
    ghost use Rattle.documents.specs.contracts.query.Query as tree;
    ghost use Rattle.documents.specs.declared.query.Query.{Query};
    ghost use Rattle.documents.specs.Matching.{depth_of};

    ghost Value = { Query };

    ghost coded = { Prim.hlevel (codes, tree.the_row.coded) };

    ghost view = { λ part. part.query };

    ghost invariant = { λ part. (part.depth ≡ depth_of part.query) × (part.depth ≤ 32) };
}

impl Part {
    fn leaf(query: Query) -> Part
        requires { depth_of query ≡ 1 }
        ensures { result ≡ query }
    {
        Part { query, depth: 1 }
    }

    /// The part under so many `NOT`, unless that is too deep.
    #[tactic(auto, using(crate::proofs::LevelLemmas::depth_negated))]
    fn negated(self, alloc: Global, times: u8) -> Result<Option<Part>, NoMemory>
        ensures { IfOk result (λ found. MatchOption found
            (32 < depth_of (negated_of times self)) (λ part. part ≡ negated_of times self)) }
    {
        let Part { query, depth } = self;
        let depth = depth + usize::from(times);
        if depth > DEEPEST {
            return Ok(None);
        }
        let mut query = query;
        for _time in 0..times {
            query = Query::Not(Boxed::new(alloc, query)?);
        }
        Ok(Some(Part { query, depth }))
    }
}

/// What parts are joined by.
#[derive(Clone, Copy)]
enum Join {
    And,
    Or,
}

/// Several parts under one node.
#[tactic(auto, using(crate::proofs::LevelLemmas::several))]
fn node(join: Join, parts: List<Query>) -> Query
    requires { length parts ≢ 1 }
    ensures { result ≡ joined_of join parts }
{
    match join {
        Join::And => Query::All(parts),
        Join::Or => Query::Any(parts),
    }
}

/// Parts that are to be joined.
#[derive(Debug, Drop)]
struct Parts {
    items: List<Query>,
    deepest: usize,
}

impl Model for Parts {
    ghost use Rattle.std.specs.Prelude.{◌≡◌, ◌≤◌, List as Items};
    ghost use Rattle.std.specs.Coded.{codes};
    ghost use Rattle.documents.specs.contracts.query.Query as tree;
    ghost use Rattle.documents.specs.declared.query.Query.{Query};
    ghost use Rattle.text_query.specs.Depths.{deepest_in};

    ghost Value = { Items Query };

    ghost coded = { Prim.hlevel (codes, tree.the_row.coded) };

    ghost view = { λ parts. parts.items };

    ghost invariant = { λ parts. (parts.deepest ≡ deepest_in parts.items) × (parts.deepest ≤ 32) };
}

impl Parts {
    fn new(alloc: Global) -> Parts
        ensures { result ≡ [] }
    {
        Parts {
            items: List::from_vec(Vec::new(alloc)),
            deepest: 0,
        }
    }

    #[tactic(auto, using(crate::proofs::LevelLemmas::deepest))]
    fn with(self, part: Part) -> Result<Parts, NoMemory>
        ensures { IfOk result (λ parts. parts ≡ self ++ part ∷ []) }
    {
        let Parts { mut items, deepest } = self;
        let Part { query, depth } = part;
        items.push(query)?;
        Ok(Parts {
            items,
            deepest: deepest.max(depth),
        })
    }

    /// The parts as one, unless that is too deep.
    #[tactic(auto, using(crate::proofs::LevelLemmas::depth_joined))]
    fn joined(self, join: Join) -> Option<Part>
        ensures { MatchOption result
            (32 < depth_of (joined_of join self)) (λ part. part ≡ joined_of join self) }
    {
        let Parts { items, deepest } = self;
        let mut items = items.into_vec();
        if items.len() == 1 {
            let query = items.pop()?;
            return Some(Part {
                query,
                depth: deepest,
            });
        }
        if deepest == DEEPEST {
            return None;
        }
        Some(Part {
            query: node(join, List::from_vec(items)),
            depth: deepest + 1,
        })
    }
}

/// What was read within a parenthesis that is open, or of the whole text.
#[derive(Debug, Drop)]
struct Level {
    /// The parts before the last `OR`.
    any: Parts,
    /// The operands behind it.
    all: Parts,
    /// How many `NOT` the next operand has.
    nots: u8,
}

impl Level {
    fn new(alloc: Global) -> Level
        ensures { result ≡ empty_level }
    {
        Level {
            any: Parts::new(alloc),
            all: Parts::new(alloc),
            nots: 0,
        }
    }

    /// An operand more, unless that is too deep.
    fn with_operand(self, alloc: Global, part: Part) -> Result<Option<Level>, NoMemory>
        ensures { IfOk result (λ found. MatchOption found
            (32 < level_depth (with_operand_lem self part)) (λ level. level ≡ with_operand_lem self part)) }
    {
        let Level { any, all, nots } = self;
        let Some(part) = part.negated(alloc, nots)? else {
            return Ok(None);
        };
        Ok(Some(Level {
            any,
            all: all.with(part)?,
            nots: 0,
        }))
    }

    /// The level behind `OR`, unless its parts are too deep.
    fn with_or(self, alloc: Global) -> Result<Option<Level>, NoMemory>
        ensures { IfOk result (λ found. MatchOption found
            (32 < level_depth (with_or_lem self)) (λ level. level ≡ with_or_lem self)) }
    {
        let Level { any, all, nots } = self;
        let Some(part) = all.joined(Join::And) else {
            return Ok(None);
        };
        Ok(Some(Level {
            any: any.with(part)?,
            all: Parts::new(alloc),
            nots,
        }))
    }

    /// The level behind `NOT`, unless that is too deep.
    fn with_not(self) -> Option<Level>
        ensures { MatchOption result (32 < self.nots + 1)
            (λ level. level ≡ record { any = self.any; all = self.all; nots = self.nots + 1 }) }
    {
        let Level { any, all, nots } = self;
        if usize::from(nots) >= DEEPEST {
            return None;
        }
        Some(Level {
            any,
            all,
            nots: nots + 1,
        })
    }

    /// The tree of the level, unless it is too deep.
    fn tree(self) -> Result<Option<Part>, NoMemory>
        ensures { IfOk result (λ found. MatchOption found
            (32 < depth_of (level_tree self)) (λ part. part ≡ level_tree self)) }
    {
        let Level { any, all, .. } = self;
        let Some(part) = all.joined(Join::And) else {
            return Ok(None);
        };
        Ok(any.with(part)?.joined(Join::Or))
    }
}

/// A tree that is put together token by token.
#[derive(Debug, Drop)]
struct Builder {
    /// The level of the innermost parenthesis that is open.
    inner: Level,
    /// The levels around it, the nearest last.
    outer: Vec<Level>,
}

impl Builder {
    fn new(alloc: Global) -> Builder
        ensures { levels_of result ≡ (empty_level, []) }
    {
        Builder {
            inner: Level::new(alloc),
            outer: Vec::new(alloc),
        }
    }

    /// A leaf more, unless it is too deep.
    fn with_leaf(self, alloc: Global, leaf: Query) -> Result<Option<Builder>, NoMemory>
        requires { depth_of leaf ≡ 1 }
        ensures { IfOk result (λ found. MatchOption found
            (32 < level_depth (with_operand_lem self.inner leaf))
            (λ builder. levels_of builder ≡ (with_operand_lem self.inner leaf, (levels_of self).1))) }
    {
        let Builder { inner, outer } = self;
        let Some(inner) = inner.with_operand(alloc, Part::leaf(leaf))? else {
            return Ok(None);
        };
        Ok(Some(Builder { inner, outer }))
    }

    fn opened(self, alloc: Global) -> Result<Builder, NoMemory>
        ensures { IfOk result (λ builder. levels_of builder
            ≡ (empty_level, self.inner ∷ (levels_of self).1)) }
    {
        let Builder { inner, mut outer } = self;
        outer.push(inner)?;
        Ok(Builder {
            inner: Level::new(alloc),
            outer,
        })
    }

    /// The innermost parenthesis closed, unless its tree is too deep.
    fn closed(self, alloc: Global) -> Result<Option<Builder>, NoMemory>
        ensures { IfOk result (λ found. MatchOption found
            (32 < levels_depth (closed_level self.inner (levels_of self).1))
            (λ builder. levels_of builder ≡ closed_level self.inner (levels_of self).1)) }
    {
        let Builder { inner, mut outer } = self;
        let Some(around) = outer.pop() else {
            return Ok(Some(Builder { inner, outer }));
        };
        let Some(part) = inner.tree()? else {
            return Ok(None);
        };
        let Some(inner) = around.with_operand(alloc, part)? else {
            return Ok(None);
        };
        Ok(Some(Builder { inner, outer }))
    }

    /// The tree behind a token, unless it is too deep.
    fn with(self, alloc: Global, token: Token) -> Result<Option<Builder>, NoMemory>
        ensures { IfOk result (λ found. MatchOption found
            (32 < levels_depth (levels_behind (levels_of self) token))
            (λ builder. levels_of builder ≡ levels_behind (levels_of self) token)) }
    {
        match token {
            Token::Word(word) => self.with_leaf(alloc, Query::Word(word)),
            Token::Phrase(words) => self.with_leaf(alloc, Query::Phrase(words)),
            Token::Open => Ok(Some(self.opened(alloc)?)),
            Token::Close => self.closed(alloc),
            Token::Or => {
                let Builder { inner, outer } = self;
                let Some(inner) = inner.with_or(alloc)? else {
                    return Ok(None);
                };
                Ok(Some(Builder { inner, outer }))
            }
            Token::Not => {
                let Builder { inner, outer } = self;
                let Some(inner) = inner.with_not() else {
                    return Ok(None);
                };
                Ok(Some(Builder { inner, outer }))
            }
            Token::And | Token::Stray => Ok(Some(self)),
        }
    }
}

/// The tree of the tokens of a query, unless it is too deep.
pub fn build(alloc: Global, tokens: Vec<Placed>) -> Result<Option<Query>, NoMemory>
    requires { IsQuery (kinds_of tokens.items) }
    ensures { IfOk result (λ found. MatchOption found
        ((query : Query) × ReadsAs (kinds_of tokens.items) query × (32 < depth_of query))
        (λ query. ReadsAs (kinds_of tokens.items) query × (depth_of query ≤ 32))) }
{
    let mut builder = Builder::new(alloc);
    for placed in tokens {
        let Placed { token, .. } = placed;
        let Some(behind) = builder.with(alloc, token)? else {
            return Ok(None);
        };
        builder = behind;
    }
    let Builder { inner, .. } = builder;
    let Some(part) = inner.tree()? else {
        return Ok(None);
    };
    let Part { query, .. } = part;
    Ok(Some(query))
}
