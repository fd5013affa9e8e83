//! What holds of a job whose parts have their own names, as theorems for readers. No function here does
//! anything, and none is called.

ghost use Rattle.std.specs.Prelude.{◌≡◌, ◌<◌, ◌≤◌, ◌+◌, ℕ, List, length, false};
ghost use Rattle.disk_model.specs.Disk.{Name, Cells, is_among};
ghost use Rattle.file_deleter.specs.Holdings.{Holdings, count_of, times};
ghost use Rattle.copy_job.specs.declared.part.JobPart.{JobPart};
ghost use Rattle.copy_job.specs.Parts.{present_names, own_names, written_names, placed_to};
ghost use Rattle.copy_job.specs.Placing.{Places};
ghost use Rattle.copy_job.specs.Jobs.{present_of};

/// Once each part has its own name, each file of the point reads what it read under the name that it
/// had.
pub fn reads_placed()
    ensures { (parts now : List JobPart) (old new : Holdings) (before after : Cells)
        → Places (length parts) parts now old new before after → (reused : List Name)
        → ((q : Name) → times reused q ≤ count_of old q)
        → ((q : Name) → times reused q ≤ count_of new q)
        → (q : Name) → 0 < times (own_names parts) q + times reused q
        → (after q).now ≡ (before (present_of parts q)).now }
{}

/// The parts hold their own names then.
pub fn all_placed()
    ensures { (parts : List JobPart)
        → present_names (placed_to (length parts) parts) ≡ own_names parts }
{}

/// Names that are not written are held as often while parts are given their own names.
pub fn present_to()
    ensures { (parts : List JobPart) (count : ℕ) (q : Name) → is_among (written_names parts) q ≡ false
        → times (present_names (placed_to count parts)) q ≡ times (present_names parts) q }
{}
