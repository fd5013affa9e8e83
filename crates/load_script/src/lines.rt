//! Lines that are numbered one after the other.

ghost use Rattle.std.specs.Prelude.{◌≡◌, ◌<◌, ◌≤◌, ◌+◌, ◌^◌, [], ◌∷◌, length, OnOk};
ghost use Rattle.load_script.specs.Generated.{AddsLines, at_multiple};

use nrt_base::{At, LaneNo, LineNo, NoMemory};
use script_serving::{Line, LineCommand};

/// Puts a line at the end. The first line has this number.
pub fn push_line(
    lines: &mut Vec<Line>,
    first: u32,
    lane: u8,
    command: LineCommand,
) -> Result<(), NoMemory>
    requires { first + length lines.old.items < 2 ^ 32 }
    ensures adds { OnOk result (AddsLines first lane (command ∷ []) lines.old.items lines.new.items) }
    ensures count { OnOk result (length lines.new.items ≡ length lines.old.items + 1) }
{
    let line = LineNo(first + lines.len() as u32);
    let at = At {
        lane: LaneNo(lane),
        line,
    };
    lines.push(Line { at, command })?;
    Ok(())
}

/// Puts a line at the end where i is a multiple of k.
pub fn push_at_multiple(
    lines: &mut Vec<Line>,
    lane: u8,
    i: u32,
    k: u32,
    command: LineCommand,
) -> Result<(), NoMemory>
    requires some { 1 ≤ k }
    requires few { 3 + length lines.old.items < 2 ^ 32 }
    ensures adds { OnOk result (AddsLines 3 lane (at_multiple k i command)
        lines.old.items lines.new.items) }
    ensures count { OnOk result (length lines.new.items ≤ length lines.old.items + 1) }
{
    if i % k == 0 {
        push_line(lines, 3, lane, command)?;
    }
    Ok(())
}
