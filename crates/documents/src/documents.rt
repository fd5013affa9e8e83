//! The documents that operations leave.

ghost use Rattle.std.specs.Prelude.{◌≡◌, IfOk, OnOk};
ghost use Rattle.std.specs.BTreeMap.{IsOrdered};
ghost use Rattle.documents.specs.declared.operation.Op.TheVariants.{Put as PutOp, Delete as DeleteOp, Drop as DropOp};
ghost use Rattle.documents.specs.Documents.{IsAscending, after_op, documents_in, documents_after, key_cmp};

use crate::operation::Op;
use crate::text_words::has_word;
use nrt_base::{Doc, Key, NoMemory, Share, Text, Word};
use std::alloc::Global;
use std::collections::BTreeMap;

/// Documents, as the text of each key.
pub type Texts = BTreeMap<Key, Text>;

#[tactic(auto, using(crate::proofs::DocumentLemmas::put_from_insert))]
fn put(alloc: Global, texts: &mut Texts, doc: &Doc) -> Result<(), NoMemory>
    requires { IsOrdered key_cmp texts.old }
    ensures after { OnOk result
        (documents_in texts.new ≡ after_op (documents_in texts.old) (PutOp doc.now)) }
    ensures ordered { OnOk result (IsOrdered key_cmp texts.new) }
{
    texts.insert(doc.key.share(alloc)?, doc.text.share(alloc)?)?;
    Ok(())
}

fn delete(texts: &mut Texts, key: &Key)
    requires { IsOrdered key_cmp texts.old }
    ensures after { documents_in texts.new ≡ after_op (documents_in texts.old) (DeleteOp key.now) }
    ensures ordered { IsOrdered key_cmp texts.new }
{
    texts.remove(key);
}

fn drop_word(texts: &mut Texts, word: &Word)
    ensures after { documents_in texts.new ≡ after_op (documents_in texts.old) (DropOp word.now) }
    ensures ordered { IsOrdered key_cmp texts.new }
{
    texts.retain(|_, text| !has_word(text.as_slice(), word));
}

/// Changes documents as an operation says.
pub fn change(alloc: Global, texts: &mut Texts, op: &Op) -> Result<(), NoMemory>
    requires { IsOrdered key_cmp texts.old }
    ensures after { OnOk result
        (documents_in texts.new ≡ after_op (documents_in texts.old) op.now) }
    ensures ordered { OnOk result (IsOrdered key_cmp texts.new) }
{
    match op {
        Op::Put(doc) => put(alloc, texts, doc),
        Op::Delete(key) => {
            delete(texts, key);
            Ok(())
        }
        Op::Drop(word) => {
            drop_word(texts, word);
            Ok(())
        }
    }
}

/// Documents in ascending order of key, as a list.
pub fn listed(alloc: Global, texts: &Texts) -> Result<Vec<Doc>, NoMemory>
    ensures { IfOk result (λ docs. docs.items ≡ documents_in texts.now) }
{
    let mut docs = Vec::with_capacity(alloc, texts.len())?;
    for (key, text) in texts {
        docs.push(Doc {
            key: key.share(alloc)?,
            text: text.share(alloc)?,
        })?;
    }
    Ok(docs)
}

/// The documents that these operations leave, in ascending order of key.
pub fn apply(alloc: Global, ops: &[Op]) -> Result<Vec<Doc>, NoMemory>
    ensures { IfOk result (λ docs. docs.items ≡ documents_after ops.now) }
{
    let mut texts = Texts::new(alloc);
    for op in ops {
        change(alloc, &mut texts, op)?;
    }
    listed(alloc, &texts)
}

/// Documents that are a list in ascending order of key.
pub fn texts_of(alloc: Global, docs: &[Doc]) -> Result<Texts, NoMemory>
    requires { IsAscending docs.now }
    ensures same { IfOk result (λ texts. documents_in texts ≡ docs.now) }
    ensures ordered { IfOk result (λ texts. IsOrdered key_cmp texts) }
{
    let mut texts = Texts::new(alloc);
    for doc in docs {
        put(alloc, &mut texts, doc)?;
    }
    Ok(texts)
}
