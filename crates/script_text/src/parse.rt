//! A script, read from its bytes.

ghost use Rattle.std.specs.Prelude.{◌≡◌, ◌≤◌, ◌<◌, ◌+◌, ◌^◌, ◌↔◌, ◌⊎◌, ◌∷◌, codes, length, IfOk, IsErrOf, MatchOption};
ghost use Rattle.script_text.specs.Grammar.{SpellsScript, statements_from, lines_of_text, words_in};
ghost use Rattle.script_text.specs.Refused.{IsFirstRefused};
ghost use Rattle.script_serving.specs.Form.{IsInForm};
ghost use Rattle.script_text.specs.Reading.{IsScriptAnswer, IsHeaderRead, IsNodesRead, IsWorkersRead, IsLogRead, IsLoggedRead, IsBodyRead, SaysNoHeader, SaysHeader};

use crate::counted::Counted;
use crate::fault::{LineFault, ScriptFault};
use crate::lines::{Statement, line_count, next_statement};
use crate::numbers::number_u8;
use crate::phases::read_phases;
use crate::words::{is_printable, is_word, next_word, word_count};
use nrt_base::{LineNo, List};
use script_serving::{Phase, Script};
use std::alloc::Global;

/// The longest script, in bytes.
pub const LONGEST: usize = 16_777_216;

/// The number of a header, which is the only word behind its name.
fn header_number(low: u8, high: u8, rest: &[u8]) -> Result<u8, LineFault>
    ensures { IsHeaderRead low high (words_in rest.now) result }
{
    let Some((word, others)) = next_word(rest) else {
        return Err(LineFault::Count);
    };
    if word_count(others) > 0 {
        return Err(LineFault::Count);
    }
    match number_u8(low, high, word) {
        Some(number) => Ok(number),
        None => Err(LineFault::Range),
    }
}

/// How many nodes the first statement says that there are.
fn read_nodes(statement: Statement<'_>) -> Result<u8, LineFault>
    ensures { IsNodesRead
        (record { number = statement.entry.number; line = statement.entry.line.now }) result }
{
    if !is_printable(statement.line) {
        return Err(LineFault::Text);
    }
    let Some((word, rest)) = next_word(statement.line) else {
        return Err(LineFault::Word);
    };
    if !is_word(b"nodes", word) {
        return Err(LineFault::NoNodes);
    }
    header_number(2, 16, rest)
}

/// The header of this name, where it is the next statement of the text, with what follows its name, and the rest of
/// the text.
fn header_statement<'a>(
    name: &[u8],
    text: &'a [u8],
    number: u32,
) -> Option<(Statement<'a>, &'a [u8], &'a [u8])>
    requires { number + length text.now < 2 ^ 32 }
    ensures { MatchOption result
        (SaysNoHeader name.now (statements_from number (lines_of_text text.now)))
        (λ parts. SaysHeader name.now number text.now
        parts.0.number parts.0.line.now parts.1.now parts.2.now) }
{
    let (statement, rest) = next_statement(text, number)?;
    let (word, behind) = next_word(statement.line)?;
    if is_word(name, word) {
        Some((statement, behind, rest))
    } else {
        None
    }
}

/// How many workers the second statement says that there are, where it has this behind its first word.
fn read_workers(statement: Statement<'_>, behind: &[u8]) -> Result<u8, LineFault>
    requires { words_in statement.line.now ≡ codes "workers" ∷ words_in behind.now }
    ensures { IsWorkersRead
        (record { number = statement.entry.number; line = statement.entry.line.now }) result }
{
    if !is_printable(statement.line) {
        return Err(LineFault::Text);
    }
    header_number(0, 8, behind)
}

/// Reads the statement of the log, where it has this behind its first word and so many headers before it.
fn read_log(
    nodes: u8,
    before: u32,
    statement: Statement<'_>,
    behind: &[u8],
) -> Result<(), LineFault>
    requires words { words_in statement.line.now ≡ codes "log" ∷ words_in behind.now }
    requires few { before ≤ 2 }
    ensures { IsLogRead nodes before
        (record { number = statement.entry.number; line = statement.entry.line.now }) result }
{
    if !is_printable(statement.line) {
        return Err(LineFault::Text);
    }
    if word_count(behind) > 0 {
        return Err(LineFault::Count);
    }
    Ok(())
}

/// Whether there is a log, and the phases, which the statements of this text spell behind so many headers. The first
/// line of the text has this number.
fn read_logged(
    alloc: Global,
    nodes: u8,
    before: u32,
    text: &[u8],
    number: u32,
) -> Result<(bool, List<Phase>), ScriptFault>
    requires bounded { number + length text.now < 2 ^ 32 }
    requires few { before ≤ 2 }
    ensures { IsLoggedRead nodes before (statements_from number (lines_of_text text.now)) result }
{
    let Some((header, behind, rest)) = header_statement(b"log", text, number) else {
        let counted = Counted::headers(before);
        let phases = read_phases(alloc, nodes, false, counted, text, number)?;
        return Ok((false, phases));
    };
    if let Err(cause) = read_log(nodes, before, header, behind) {
        return Err(ScriptFault::BadScript(LineNo(header.number), cause));
    }
    let counted = Counted::headers(before + 1);
    let phases = read_phases(alloc, nodes, true, counted, rest, header.number + 1)?;
    Ok((true, phases))
}

/// The script of so many nodes whose statements behind the first stand in this text. The first line of the text has
/// this number.
fn read_body(alloc: Global, nodes: u8, text: &[u8], number: u32) -> Result<Script, ScriptFault>
    requires { number + length text.now < 2 ^ 32 }
    ensures { IsBodyRead nodes (statements_from number (lines_of_text text.now)) result }
{
    let Some((second, behind, rest)) = header_statement(b"workers", text, number) else {
        let (log, phases) = read_logged(alloc, nodes, 1, text, number)?;
        let workers = 0;
        return Ok(Script {
            nodes,
            workers,
            log,
            phases,
        });
    };
    let workers = match read_workers(second, behind) {
        Ok(workers) => workers,
        Err(cause) => return Err(ScriptFault::BadScript(LineNo(second.number), cause)),
    };
    let (log, phases) = read_logged(alloc, nodes, 2, rest, second.number + 1)?;
    Ok(Script {
        nodes,
        workers,
        log,
        phases,
    })
}

/// The answer to the bytes of a script.
fn answer(alloc: Global, bytes: &[u8]) -> Result<Script, ScriptFault>
    ensures { IsScriptAnswer bytes.now result }
{
    if bytes.len() > LONGEST {
        return Err(ScriptFault::TooLarge);
    }
    let Some((first, rest)) = next_statement(bytes, 1) else {
        let line = LineNo(line_count(bytes) + 1);
        return Err(ScriptFault::BadScript(line, LineFault::NoNodes));
    };
    let nodes = match read_nodes(first) {
        Ok(nodes) => nodes,
        Err(cause) => return Err(ScriptFault::BadScript(LineNo(first.number), cause)),
    };
    read_body(alloc, nodes, rest, first.number + 1)
}

/// The script that bytes spell.
///
/// Its lines end by line feeds, which the last may lack. A line that is empty, has only spaces or begins with `#` is
/// passed over; every other is a statement of words between spaces. The first is `nodes N`, the next may be
/// `workers W`, the next `log`, and each later one is `join` or a line of a lane. Where a line is refused, the answer names the first
/// one that is and its first cause, in the order text, nodes, word, count, range, query.
pub fn parse_script(alloc: Global, bytes: &[u8]) -> Result<Script, ScriptFault>
    // What is answered.
    ensures script { IfOk result (SpellsScript bytes.now) }
    ensures form { IfOk result IsInForm }
    ensures bad { (n : LineNo) (cause : LineFault) → IsErrOf result (ScriptFault.BadScript n cause)
        → IsFirstRefused bytes.now n.0 cause }
    ensures large { IsErrOf result ScriptFault.TooLarge ↔ (LONGEST < length bytes.now) }

    // Each script and each refusal is answered, unless memory runs out.
    ensures each_script { (script : Script) → SpellsScript bytes.now script
        → (result ≡ Err ScriptFault.Memory) ⊎ (result ≡ Ok script) }
    ensures each_refusal { (n : LineNo) (cause : LineFault) → IsFirstRefused bytes.now n.0 cause
        → (result ≡ Err ScriptFault.Memory) ⊎ (result ≡ Err (ScriptFault.BadScript n cause)) }
{
    answer(alloc, bytes)
}
