//! Worked operations and scans.

ghost use Rattle.std.specs.Prelude.{IsTrue};
ghost use Rattle.nrt_base.specs.Bytes.{is_key, is_text};

use documents::{Answer, Op, apply, scan};
use nrt_base::{Doc, Key, NoMemory, Text, Word};
use std::alloc::Global;
use std::test::Fail;
use text_query::parse_query;

fn doc(alloc: Global, key: &[u8], text: &[u8]) -> Result<Doc, NoMemory>
    requires key { IsTrue (is_key key.now) }
    requires text { IsTrue (is_text text.now) }
{
    Ok(Doc {
        key: Key::new(alloc, key)?,
        text: Text::new(alloc, text)?,
    })
}

#[test]
fn a_drop_takes_away_what_has_its_word(rt: HostRuntime) -> Result<(), Fail> {
    let alloc = rt.alloc();
    let mut ops = Vec::new(alloc);
    ops.push(Op::Put(doc(alloc, b"a", b"x")?))?;
    ops.push(Op::Put(doc(alloc, b"b", b"y, X")?))?;
    ops.push(Op::Put(doc(alloc, b"x", b"xy")?))?;
    ops.push(Op::Put(doc(alloc, b"a", b"y")?))?;
    ops.push(Op::Drop(Word::new(alloc, b"x")?))?;
    let docs = apply(alloc, ops.as_slice())?;
    assert_eq!(rt; docs.len(), 2);
    assert_eq!(rt; docs[0].key.as_slice(), b"a".as_slice());
    assert_eq!(rt; docs[0].text.as_slice(), b"y".as_slice());
    assert_eq!(rt; docs[1].key.as_slice(), b"x".as_slice());
    Ok(())
}

// The hits of an answer, each as the digit of its rank and its key.
fn shown(alloc: Global, answer: &Answer) -> Result<Vec<u8>, NoMemory> {
    let mut text = Vec::new(alloc);
    for hit in answer.hits.as_slice() {
        text.push(b'0' + (hit.rank % 10) as u8)?;
        text.extend_from_slice(hit.key.as_slice())?;
    }
    Ok(text)
}

#[test]
fn worked_scans(rt: HostRuntime) -> Result<(), Fail> {
    let alloc = rt.alloc();
    let docs = [
        doc(alloc, b"a", b"red fox red")?,
        doc(alloc, b"b", b"red hen")?,
        doc(alloc, b"c", b"blue hen; Quick fox")?,
        doc(alloc, b"d", b"a a a b")?,
    ];
    let rows: [(&str, u32, &[u8]); 12] = [
        ("red", 2, b"2a1b"),
        ("FOX", 2, b"1a1c"),
        ("re", 0, b""),
        ("\"red fox\"", 1, b"1a"),
        ("\"hen quick\"", 1, b"1c"),
        ("\"blue fox\"", 0, b""),
        ("\"a a\"", 1, b"2d"),
        ("red AND hen", 1, b"2b"),
        ("red OR hen", 3, b"2a2b1c"),
        ("a OR c", 1, b"3d"),
        ("NOT red", 2, b"0c0d"),
        ("NOT c AND \"a a\"", 1, b"2d"),
    ];
    for (query, total, hits) in rows {
        let query = parse_query(alloc, query.as_bytes())?;
        let answer = scan(alloc, &docs, &query)?;
        assert_eq!(rt; answer.total, total);
        assert_eq!(rt; shown(alloc, &answer)?.as_slice(), hits);
    }
    Ok(())
}
