//! What holds of files of live rows: theorems for readers. No function here does anything.

ghost use Rattle.std.specs.Prelude.{ℕ, List};
ghost use Rattle.body_forms.specs.File.{IsOneToOne};
ghost use Rattle.live_bits.specs.LiveRows.{SpellsLiveRows, IsLiveFile};

/// Live rows have one spelling, and bytes spell one list of live rows.
pub fn one_spelling()
    ensures { IsOneToOne SpellsLiveRows }
{}

/// Live rows have one file with an id and a live generation, and bytes are the file of one list of them.
pub fn one_file()
    ensures { (id : List ℕ) (live_gen : ℕ)
        → IsOneToOne (λ bytes live. IsLiveFile id live_gen live bytes) }
{}
