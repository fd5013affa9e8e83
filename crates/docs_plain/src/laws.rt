//! What holds of files of stored documents: theorems for readers. No function here does anything.

ghost use Rattle.std.specs.Prelude.{ℕ, List};
ghost use Rattle.body_forms.specs.File.{IsOneToOne};
ghost use Rattle.docs_plain.specs.Documents.{SpellsDocuments, IsDocumentsFile};

/// Documents have one spelling, and bytes spell one list of documents.
pub fn one_spelling()
    ensures { IsOneToOne SpellsDocuments }
{}

/// Documents have one file with an id, and bytes are the file of one list of documents.
pub fn one_file()
    ensures { (id : List ℕ) → IsOneToOne (λ bytes docs. IsDocumentsFile id docs bytes) }
{}
