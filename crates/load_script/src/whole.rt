//! The generated script.

ghost use Rattle.std.specs.Prelude.{◌≡◌, ◌≤◌, IfOk};
ghost use Rattle.script_serving.specs.Form.{IsInForm};
ghost use Rattle.load_script.specs.Generated.{generated_script};

use crate::commands::{last_lines, push_turn};
use nrt_base::{List, NoMemory};
use script_serving::Script;
use script_text::phase_of;
use std::alloc::Global;

/// The script of n documents.
pub fn generated(alloc: Global, n: u32) -> Result<Script, NoMemory>
    requires some { 1 ≤ n }
    requires most { n ≤ 10000 }
    ensures script { IfOk result (λ script. script ≡ generated_script n) }
    ensures form { IfOk result IsInForm }
{
    let mut lines = Vec::new(alloc);
    for i in 0..n {
        push_turn(alloc, &mut lines, i + 1)?;
    }
    let last = last_lines(alloc, lines.len() as u32 + 4)?;
    let mut phases = Vec::new(alloc);
    phases.push(phase_of(alloc, lines)?)?;
    phases.push(phase_of(alloc, last)?)?;
    Ok(Script {
        nodes: 3,
        workers: 2,
        log: false,
        phases: List::from_vec(phases),
    })
}
