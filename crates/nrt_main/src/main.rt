//! The program: it runs a script and writes its report, or the image of a node's directory, or the frames of a copy to a node; or tells
//! the messages of a stream, or checks an image, or runs the generated script and writes its summary.
#![tactic(auto)]

ghost use Rattle.std.specs.Prelude.{◌≡◌};
ghost use Rattle.stream_commands.specs.Statuses.{cause_number};

mod standard;

use crate::standard::{StdSink, StdSource};
use disk_memory::MemDir;
use index_check::check_image;
use nrt_base::{LineNo, NoMemory};
pub use nrt_commands::run_nrt;
use nrt_commands::{Cluster, OpenGate, let_go};
use nrt_streams::Arg;
use report_judge::{cut_source, explain as why, judge};
use script_text::{LineFault, parse_script};
use std::alloc::Global;
use std::process::ExitCode;
use std::{env, io};
use stream_commands::{Status, stream_fault};
use usage_text::{advice, asked, mistake};

/// The words of the command line, the program's name first.
fn texts(rt: &HostRuntime) -> io::Result<Vec<String>> {
    let mut texts = Vec::new(rt.alloc());
    for text in env::args(rt)? {
        texts.push(text)?;
    }
    Ok(texts)
}

/// The words after the program's name.
fn words(alloc: Global, texts: &[String]) -> Result<Vec<Arg>, NoMemory> {
    let mut words = Vec::new(alloc);
    for text in texts.iter().skip(1) {
        words.push(Arg::new(alloc, text.as_bytes())?)?;
    }
    Ok(words)
}

/// The number of a cause, as the program names it.
fn cause_number(cause: LineFault) -> u8
    ensures { result ≡ cause_number cause }
{
    match cause {
        LineFault::NoNodes => 1,
        LineFault::Word => 2,
        LineFault::Count => 3,
        LineFault::Range => 4,
        LineFault::Query(_) => 5,
        LineFault::Text => 6,
    }
}

/// Says what is wrong with a line.
fn explain_line(rt: &HostRuntime, script: &[u8], line: LineNo, cause: LineFault) -> io::Result<()> {
    eprintln!(rt; "line {} cause {}", line.0, cause_number(cause))?;
    match advice(script, line, cause) {
        Some(advice) => eprintln!(rt; "nrt: line {}: {}", line.0, advice),
        None => eprintln!(rt; "nrt: {}", Status::BadScript(line, cause)),
    }
}

/// Says what is wrong with the directory of an image.
fn explain_image(rt: &HostRuntime, image: &[u8]) -> io::Result<()> {
    let Ok(checked) = check_image(rt.alloc(), image) else {
        return Ok(());
    };
    match &checked.fault {
        Some(fault) => eprintln!(rt; "nrt: {}", fault),
        None => Ok(()),
    }
}

/// Says where the report of a source goes wrong, and why.
fn explain_report(rt: &HostRuntime, source: &[u8]) -> io::Result<()> {
    let source = cut_source(source);
    let Ok(script) = parse_script(rt.alloc(), source.script) else {
        return Ok(());
    };
    let Ok(judgement) = judge(rt.alloc(), &script, source.report) else {
        return Ok(());
    };
    match why(rt.alloc(), &script, source.report, &judgement) {
        Ok(text) => eprintln!(rt; "nrt: {}", text.as_str()),
        Err(_) => Ok(()),
    }
}

/// Says what is wrong with words that are no command.
fn explain_words(rt: &HostRuntime, texts: &[String]) -> io::Result<()> {
    eprint!(rt; "{}", mistake(rt.alloc(), texts)?)
}

/// What a run leaves for messages: the words, what was read, and whether the other end of standard output was closed.
#[derive(Clone, Copy)]
struct Seen<'a> {
    texts: &'a [String],
    input: &'a [u8],
    is_broken: bool,
}

/// Says on standard error why not all was done. Who reads the output may leave without a word.
fn explain(rt: &HostRuntime, status: Status, seen: &Seen<'_>) -> io::Result<()> {
    match status {
        Status::Done => Ok(()),
        Status::WriteFault if seen.is_broken => Ok(()),
        Status::Usage => explain_words(rt, seen.texts),
        Status::BadScript(line, cause) => explain_line(rt, seen.input, line, cause),
        Status::BadStream(_) => {
            eprintln!(rt; "{}", status)?;
            eprintln!(rt; "nrt: {}", stream_fault(rt.alloc(), seen.input))
        }
        Status::BadIndex => explain_image(rt, seen.input),
        Status::BadReport => explain_report(rt, seen.input),
        _ => eprintln!(rt; "nrt: {}", status),
    }
}

/// A help or a version that was not written. Who reads the output may leave without a word.
fn unwritten(rt: &HostRuntime, error: &io::Error) -> Status {
    if error.kind() != io::ErrorKind::BrokenPipe {
        let _ = eprintln!(rt; "nrt: {}", Status::WriteFault);
    }
    Status::WriteFault
}

/// Writes the help or the version, where the only word asks for it.
fn tell(rt: &HostRuntime, texts: &[String]) -> Option<Status> {
    let [_, word] = texts else {
        return None;
    };
    match asked(rt.alloc(), word.as_str()) {
        Ok(None) => None,
        Ok(Some(text)) => match print!(rt; "{}", text) {
            Ok(()) => Some(Status::Done),
            Err(error) => Some(unwritten(rt, &error)),
        },
        Err(_) => Some(Status::Memory),
    }
}

/// Why there are no words: one of them is no text, or memory ran out.
fn without_words(rt: &HostRuntime, error: &io::Error) -> Status {
    let status = match error.kind() {
        io::ErrorKind::InvalidData => Status::Usage,
        _ => Status::Memory,
    };
    let _ = eprintln!(rt; "nrt: {}", status);
    status
}

fn main(rt: HostRuntime) -> ExitCode {
    let texts = match texts(&rt) {
        Ok(texts) => texts,
        Err(error) => return ExitCode::from(without_words(&rt, &error).number()),
    };
    if let Some(status) = tell(&rt, texts.as_slice()) {
        return ExitCode::from(status.number());
    }
    let mut source = StdSource::new(rt.alloc(), rt.stdin());
    let mut sink = StdSink::new(rt.stdout());
    let mut kept: Option<Cluster<MemDir>> = None;
    let status = match words(rt.alloc(), texts.as_slice()) {
        Ok(words) => run_nrt(
            &rt,
            rt.alloc(),
            words.as_slice(),
            &mut source,
            &mut sink,
            &OpenGate,
            &mut kept,
        ),
        Err(_) => Status::Memory,
    };
    let seen = Seen {
        texts: texts.as_slice(),
        input: source.seen(),
        is_broken: sink.is_broken(),
    };
    let _ = explain(&rt, status, &seen);
    let_go(kept);
    ExitCode::from(status.number())
}
