//! What no word of a line says, and the script's line does.

ghost use Rattle.std.specs.Prelude.{◌≡◌, IfOk};
ghost use Rattle.report_reading.specs.Readings.{op_of_line as op_of_line_lem, op_told as op_told_lem, query_of_line as query_of_line_lem, most_of_line as most_of_line_lem};

use documents::{Op, Query};
use nrt_base::{Key, NoMemory, Share, Word};
use script_serving::LineCommand;
use std::alloc::Global;

/// The operation that a line asks for; where it asks for none, one that is nothing to it.
fn op_of_line(alloc: Global, command: &LineCommand) -> Result<Op, NoMemory>
    ensures { IfOk result (λ op. op ≡ op_of_line_lem command.now) }
{
    match command {
        LineCommand::Put(doc) => Ok(Op::Put(doc.share(alloc)?)),
        LineCommand::Delete(key) => Ok(Op::Delete(key.share(alloc)?)),
        LineCommand::Drop(word) => Ok(Op::Drop(word.share(alloc)?)),
        _ => Ok(Op::Delete(Key::new(alloc, b"-")?)),
    }
}

/// The operation that an entry of a line accepts.
pub fn op_told(alloc: Global, due: &[Op], command: &LineCommand) -> Result<Op, NoMemory>
    ensures { IfOk result (λ op. op ≡ op_told_lem due.now command.now) }
{
    match due.first() {
        Some(op) => op.share(alloc),
        None => op_of_line(alloc, command),
    }
}

/// The query of a line; where it has none, one that is nothing to it.
pub fn query_of_line(alloc: Global, command: &LineCommand) -> Result<Query, NoMemory>
    ensures { IfOk result (λ query. query ≡ query_of_line_lem command.now) }
{
    match command {
        LineCommand::Search(_, query) | LineCommand::Ask(_, query) => query.share(alloc),
        _ => Ok(Query::Word(Word::new(alloc, b"a")?)),
    }
}

/// How many tasks a line asks for; 0 where it asks for none.
pub fn most_of_line(command: &LineCommand) -> u32
    ensures { result ≡ most_of_line_lem command.now }
{
    match command {
        LineCommand::Drain(most) => *most,
        _ => 0,
    }
}
