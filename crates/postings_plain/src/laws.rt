//! What holds of files of postings: theorems for readers. No function here does anything.

ghost use Rattle.std.specs.Prelude.{◌≡◌, ℕ, List};
ghost use Rattle.body_forms.specs.File.{IsOneToOne};
ghost use Rattle.postings_plain.specs.declared.format.Format.{Format};
ghost use Rattle.postings_plain.specs.Postings.{Entry};
ghost use Rattle.postings_plain.specs.Body.{SpellsPostings, IsPostingsFile, IsRowCount};

/// Entries have one spelling in each format, and bytes spell one list of entries in a format.
pub fn one_spelling()
    ensures { (format : Format) → IsOneToOne (SpellsPostings format) }
{}

/// Entries in a format have one file with an id, and bytes are the file of one list of entries in one format.
pub fn one_file()
    ensures { (id : List ℕ) → IsOneToOne (λ bytes post. IsPostingsFile id post bytes) }
{}

/// Entries have one number of rows.
pub fn one_row_count()
    ensures { (es : List Entry) (m n : ℕ) → IsRowCount es m → IsRowCount es n → m ≡ n }
{}
