//! The rows that a segment is built from.

ghost use Rattle.std.specs.Prelude.{◌≡◌, map, IfOk};
ghost use Rattle.std.specs.List.{All};
ghost use Rattle.seg_reader.specs.Sound.{term_row};
ghost use Rattle.seg_build.specs.Rows.{IsPrepared, docs_of, live_of};

use documents::words;
use nrt_base::{Doc, List, NoMemory, Share, Word};
use postings_plain::TermRow;
use seg_reader::LiveBits;
use std::alloc::{AllocError, Global};

/// The most rows of a segment.
const MOST: usize = 0xffff_ffff;

/// A row that a segment is built from: a document, and the words of its text in order.
#[derive(Debug, Drop)]
pub struct Prepared {
    pub doc: Doc,
    pub words: List<Word>,
}

impl Prepared {
    /// The row of a document.
    pub fn of(alloc: Global, doc: Doc) -> Result<Prepared, NoMemory>
        ensures doc { IfOk result (λ row. row.doc ≡ doc) }
        ensures words { IfOk result IsPrepared }
    {
        let words = words(alloc, doc.text.as_slice())?;
        Ok(Prepared {
            doc,
            words: List::from_vec(words),
        })
    }
}

/// The document of each row.
pub fn documents(alloc: Global, rows: &[Prepared]) -> Result<Vec<Doc>, NoMemory>
    ensures { IfOk result (λ docs. docs.items ≡ docs_of rows.now) }
{
    let mut docs = Vec::with_capacity(alloc, rows.len())?;
    for row in rows {
        docs.push(row.doc.share(alloc)?)?;
    }
    Ok(docs)
}

/// The key and the words of each row, dead ones among them.
pub fn term_rows(alloc: Global, rows: &[Prepared]) -> Result<Vec<TermRow>, NoMemory>
    requires { All IsPrepared rows.now }
    ensures { IfOk result (λ terms. terms.items ≡ map term_row (docs_of rows.now)) }
{
    let mut terms = Vec::with_capacity(alloc, rows.len())?;
    for row in rows {
        let key = row.doc.key.share(alloc)?;
        let words = row.words.share(alloc)?;
        terms.push(TermRow { key, words })?;
    }
    Ok(terms)
}

/// The live rows: all but those that are marked dead. 2^32 rows or more are out of memory.
pub fn live_except(alloc: Global, dead: &[bool]) -> Result<LiveBits, NoMemory>
    ensures { IfOk result (λ live. live ≡ live_of dead.now) }
{
    if dead.len() > MOST {
        return Err(AllocError);
    }
    let mut live = LiveBits::all(alloc, dead.len() as u32)?;
    for (row, is_dead) in dead.iter().enumerate() {
        if *is_dead {
            live.kill(row as u32);
        }
    }
    Ok(live)
}
