//! Which segment names the generations of a history have drawn.

ghost use Rattle.std.specs.Prelude.{◌≡◌, ◌==◌, ◌↔◌, ℕ, if◌then◌else◌, IsTrue, OnOk};
ghost use Rattle.history_rules.specs.Nodes.{Past};
ghost use Rattle.history_rules.specs.Points.{is_drawn, IsDrawnFile, IsDrawnTemporary};
ghost use Rattle.history_facts.specs.Generations.{drawn_in, ShowsDrawn};

use crate::generation::Generation;
use file_names::{FileName, segment_of_file, segment_of_temporary};
use nrt_base::{NoMemory, SegNo};
use std::collections::BTreeMap;

/// How many segment names each generation has drawn, none where there is no note.
pub type Drawn = BTreeMap<u64, usize>;

/// Notes how many names the present generation has drawn.
pub fn note_drawn(drawn: &mut Drawn, generation: &Generation) -> Result<(), NoMemory>
    ensures { OnOk result ((g : ℕ) → drawn_in drawn.new g ≡
        (if generation.now.number == g then generation.now.names else drawn_in drawn.old g)) }
{
    drawn.insert(generation.number, generation.names)?;
    Ok(())
}

/// Whether a segment's name was drawn.
fn is_drawn(drawn: &Drawn, seg: SegNo) -> bool
    ensures { (past : Past) → ShowsDrawn past drawn.now → result ≡ is_drawn seg.0 past }
{
    match drawn.get(&seg.generation().0) {
        Some(names) => seg.place() < *names as u64,
        None => false,
    }
}

/// Whether the name is that of a file of a segment whose name was drawn.
pub fn is_drawn_file(drawn: &Drawn, name: &FileName) -> bool
    ensures { (past : Past) → ShowsDrawn past drawn.now → IsTrue result ↔
        IsDrawnFile past name.now }
{
    match segment_of_file(name) {
        Some(seg) => is_drawn(drawn, seg),
        None => false,
    }
}

/// Whether the name is the temporary name of such a file.
pub fn is_drawn_temporary(drawn: &Drawn, name: &FileName) -> bool
    ensures { (past : Past) → ShowsDrawn past drawn.now → IsTrue result ↔
        IsDrawnTemporary past name.now }
{
    match segment_of_temporary(name) {
        Some(seg) => is_drawn(drawn, seg),
        None => false,
    }
}
