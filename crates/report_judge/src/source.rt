//! A source cut into a script and a report.

ghost use Rattle.std.specs.Prelude.{◌≡◌, ◌≤◌, ◌++◌, length};
ghost use Rattle.report_reading.specs.Cuts.{behind_line};
ghost use Rattle.report_judge.specs.Sources.{is_mark as is_mark_lem, script_part, report_part};

use report_reading::{first_line, next_line};

/// A script, and a report on it.
#[derive(Clone, Copy)]
pub struct ScriptAndReport<'a> {
    pub script: &'a [u8],
    pub report: &'a [u8],
}

/// Whether a line is the word `report` alone.
fn is_mark(line: &[u8]) -> bool
    ensures { result ≡ is_mark_lem line.now }
{
    line == b"report\n".as_slice() || line == b"report".as_slice()
}

/// A source from its first line that is the word `report` alone.
#[tactic(auto, using(crate::proofs::SourceLaws::none_passed, crate::proofs::SourceLaws::passed_next, crate::proofs::SourceLaws::from_mark, crate::proofs::SourceLaws::from_end))]
fn from_mark(bytes: &[u8]) -> &[u8]
    ensures script { script_part bytes.now ++ result.now ≡ bytes.now }
    ensures report { behind_line result.now ≡ report_part bytes.now }
{
    let mut left = bytes;
    while let Some((line, rest)) = next_line(left) {
        if is_mark(line) {
            return left;
        }
        left = rest;
    }
    left
}

/// The parts of a source before and behind its first line that is the word `report` alone; where there is none, all is script.
pub fn cut_source(bytes: &[u8]) -> ScriptAndReport<'_>
    ensures script { result.script.now ≡ script_part bytes.now }
    ensures report { result.report.now ≡ report_part bytes.now }
    ensures short { length result.script.now ≤ length bytes.now }
{
    let rest = from_mark(bytes);
    let (_, report) = first_line(rest);
    let script = &bytes[..bytes.len() - rest.len()];
    ScriptAndReport { script, report }
}
