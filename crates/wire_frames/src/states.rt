//! A copy state as messages, and back.

ghost use Rattle.std.specs.Prelude.{◌≡◌, ◌⊎◌, ◌<◌, ◌^◌, ◌++◌, ◌∷◌, ◌↔◌, ℕ, length, map, Some, Ok, Err, IfOk, IfSome, IfNone, OnOk};
ghost use Rattle.copy_state.specs.declared.state.CopyState.{CopyState};
ghost use Rattle.wire_frames.specs.States.{file_message, messages_of_state, kind_behind, kind_found, IsFirstMismatch, IsFirstDisorder, AreListed, TellsState};

use crate::encoding::{COMPLETED, FILE, kind_of};
use crate::message::{Message, StateFault};
use copy_state::{CopyState, FileMetaData};
use file_names::FileName;
use nrt_base::{List, NoMemory, Share};
use std::alloc::Global;

/// The messages of a copy state: one State, then a File for each file and a Completed for each name.
pub fn state_messages(alloc: Global, state: &CopyState) -> Result<Vec<Message>, NoMemory>
    requires files { length state.now.files < 2 ^ 32 }
    requires completed { length state.now.completed < 2 ^ 32 }
    ensures { IfOk result (λ messages. messages.items ≡ messages_of_state state.now) }
{
    let files = state.files.as_slice();
    let completed = state.completed.as_slice();
    let mut messages = Vec::new(alloc);
    messages.push(Message::State {
        version: state.version,
        generation: state.generation,
        primary_gen: state.primary_gen,
        files: files.len() as u32,
        completed: completed.len() as u32,
        infos: state.infos.share(alloc)?,
    })?;
    push_files(&mut messages, alloc, files)?;
    push_completed(&mut messages, completed)?;
    Ok(messages)
}

// Puts the messages of files at the end.
fn push_files(
    messages: &mut Vec<Message>,
    alloc: Global,
    files: &[(FileName, FileMetaData)],
) -> Result<(), NoMemory>
    ensures { OnOk result (messages.new.items ≡ messages.old.items ++ map file_message files.now) }
{
    for (name, meta) in files {
        let meta = meta.share(alloc)?;
        messages.push(Message::File { name: *name, meta })?;
    }
    Ok(())
}

// Puts the messages of completed names at the end.
fn push_completed(messages: &mut Vec<Message>, names: &[FileName]) -> Result<(), NoMemory>
    ensures { OnOk result (messages.new.items ≡ messages.old.items ++ map Message.Completed names.now) }
{
    for name in names {
        messages.push(Message::Completed { name: *name })?;
    }
    Ok(())
}

// The kind that is wanted at a place behind a state of so many files and completed names.
fn kind_behind(files: u32, completed: u32, at: usize) -> Option<u8>
    ensures { result ≡ kind_behind files completed at }
{
    let files = files as usize;
    if at < files {
        Some(FILE)
    } else if at < files + completed as usize {
        Some(COMPLETED)
    } else {
        None
    }
}

// The first place behind a state where the messages are not its files and then its completed names.
fn disorder_behind(files: u32, completed: u32, messages: &[Message]) -> Option<usize>
    ensures some { IfSome result (λ at.
        IsFirstMismatch (kind_found messages.now) (kind_behind files completed) at) }
    ensures none { IfNone result ((i : ℕ)
        → kind_found messages.now i ≡ kind_behind files completed i) }
{
    for (i, message) in messages.iter().enumerate() {
        if kind_behind(files, completed, i) != Some(kind_of(message)) {
            return Some(i);
        }
    }
    match kind_behind(files, completed, messages.len()) {
        Some(_) => Some(messages.len()),
        None => None,
    }
}

// The files of which these are the messages.
fn files_of(alloc: Global, messages: &[Message]) -> Result<List<(FileName, FileMetaData)>, NoMemory>
    requires { (i : ℕ) → i < length messages.now → kind_found messages.now i ≡ Some 3 }
    ensures { IfOk result (λ files. map file_message files ≡ messages.now) }
{
    let mut files = List::new(alloc);
    for message in messages {
        match message {
            Message::File { name, meta } => {
                let meta = meta.share(alloc)?;
                files.push((*name, meta))?;
            }
            _ => unreachable!(),
        }
    }
    Ok(files)
}

// The completed names of which these are the messages.
fn names_of(alloc: Global, messages: &[Message]) -> Result<List<FileName>, NoMemory>
    requires { (i : ℕ) → i < length messages.now → kind_found messages.now i ≡ Some 4 }
    ensures { IfOk result (λ names. map Message.Completed names ≡ messages.now) }
{
    let mut names = List::new(alloc);
    for message in messages {
        match message {
            Message::Completed { name } => names.push(*name)?,
            _ => unreachable!(),
        }
    }
    Ok(names)
}

// The files and the completed names of which these are the messages.
fn listed(
    alloc: Global,
    files: u32,
    completed: u32,
    messages: &[Message],
) -> Result<(List<(FileName, FileMetaData)>, List<FileName>), NoMemory>
    requires { (i : ℕ) → kind_found messages.now i ≡ kind_behind files completed i }
    ensures { IfOk result (λ x. AreListed files completed x.0 x.1 messages.now) }
{
    let _ = completed;
    let (front, back) = messages.split_at(files as usize);
    let listed = files_of(alloc, front)?;
    let names = names_of(alloc, back)?;
    Ok((listed, names))
}

// The state of which these are the messages, the first and those behind it.
fn state_behind(alloc: Global, first: &Message, rest: &[Message]) -> Result<CopyState, StateFault>
    ensures { TellsState (first.now ∷ rest.now) result }
{
    match first {
        Message::State {
            version,
            generation,
            primary_gen,
            files,
            completed,
            infos,
        } => {
            if let Some(at) = disorder_behind(*files, *completed, rest) {
                return Err(StateFault::Order(at + 1));
            }
            let infos = infos.share(alloc)?;
            let (files, completed) = listed(alloc, *files, *completed, rest)?;
            Ok(CopyState {
                version: *version,
                generation: *generation,
                primary_gen: *primary_gen,
                infos,
                files,
                completed,
            })
        }
        Message::Notice { .. }
        | Message::File { .. }
        | Message::Completed { .. }
        | Message::Chunk { .. } => Err(StateFault::Order(0)),
    }
}

// The state of which these are the messages.
fn state_told(alloc: Global, messages: &[Message]) -> Result<CopyState, StateFault>
    ensures { TellsState messages.now result }
{
    match messages.split_first() {
        Some((first, rest)) => state_behind(alloc, first, rest),
        None => Err(StateFault::Order(0)),
    }
}

/// The state of which these are the messages: one State, then a File for each of its files and a Completed for each of
/// its names.
pub fn state_of(alloc: Global, messages: &[Message]) -> Result<CopyState, StateFault>
    ensures state { IfOk result (λ s. messages.now ≡ messages_of_state s) }
    ensures given { (s : CopyState) → messages.now ≡ messages_of_state s
        → (result ≡ Ok s) ⊎ (result ≡ Err StateFault.Memory) }
    ensures order { (at : ℕ) → (result ≡ Err (StateFault.Order at))
        ↔ IsFirstDisorder messages.now at }
{
    state_told(alloc, messages)
}
