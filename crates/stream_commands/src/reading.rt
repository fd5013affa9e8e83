//! A source, read to its end, and the script that its bytes are.

ghost use Rattle.std.specs.Prelude.{◌≡◌, ◌≤◌, ◌<◌, IfOk, IfErr, Err, List, ℕ, length};
ghost use Rattle.std.specs.Io.KnownBytes.{Consumes, IsAtEnd};
ghost use Rattle.nrt_base.specs.Causes.{Rose};
ghost use Rattle.script_serving.specs.Form.{IsInForm};
ghost use Rattle.script_text.specs.Grammar.{SpellsScript};
ghost use Rattle.script_text.specs.declared.parse.TheConstants.{LONGEST};
ghost use Rattle.stream_commands.specs.Reads.{longest};
ghost use Rattle.stream_commands.specs.Scripts.{IsRefusal};

use crate::status::Status;
use nrt_streams::Source;
use script_serving::Script;
use script_text::{LONGEST, ScriptFault, parse_script};
use std::alloc::Global;

/// Why a source was not read to its end.
#[derive(Clone, Copy, Debug, PartialEq, Eq)]
pub enum ReadEnd {
    /// Want of memory.
    Memory,
    /// The source failed.
    Fault,
    /// More bytes were taken than a script may have.
    TooLarge,
}

const PIECE: usize = 4096;

/// Reads a source to its end, in at most as many turns as a script has bytes, and two more.
pub fn read_all<S: Source>(alloc: Global, source: &mut S) -> Result<Vec<u8>, ReadEnd>
    ensures read { IfOk result (λ bytes. Consumes (S.left source.old)
        (S.left source.new) bytes.items × IsAtEnd (S.left source.new) ×
        (length bytes.items ≤ LONGEST)) }
    ensures later { S.fault_count source.old ≤ S.fault_count source.new }
    ensures fault { result ≡ Err ReadEnd.Fault → Rose (S.fault_count source.old)
        (S.fault_count source.new) }
    ensures within { result ≡ Err ReadEnd.Fault → (taken : List ℕ) × Consumes (S.left source.old)
        (S.left source.new) taken × (length taken ≤ LONGEST) }
    ensures large { result ≡ Err ReadEnd.TooLarge → (taken : List ℕ) × Consumes (S.left source.old)
        (S.left source.new) taken × (LONGEST < length taken) }
{
    let mut bytes = Vec::new(alloc);
    let mut piece = [0; PIECE];
    for turn in 0..LONGEST + 1 {
        match source.read(&mut piece) {
            Err(_) => return Err(ReadEnd::Fault),
            Ok(count) => {
                if count == 0 {
                    return Ok(bytes);
                }
                if bytes.extend_from_slice(&piece[..count]).is_err() {
                    return Err(ReadEnd::Memory);
                }
                if bytes.len() > LONGEST {
                    return Err(ReadEnd::TooLarge);
                }
            }
        }
    }
    unreachable!()
}

/// The script that the bytes are; else the answer to them.
pub fn read_script(alloc: Global, bytes: &[u8]) -> Result<Script, Status>
    requires { length bytes.now ≤ longest }
    ensures script { IfOk result (SpellsScript bytes.now) }
    ensures form { IfOk result IsInForm }
    ensures refusal { IfErr result (IsRefusal bytes.now) }
{
    match parse_script(alloc, bytes) {
        Ok(script) => Ok(script),
        Err(ScriptFault::BadScript(line, cause)) => Err(Status::BadScript(line, cause)),
        Err(ScriptFault::Memory) => Err(Status::Memory),
        Err(ScriptFault::TooLarge) => unreachable!(),
    }
}
