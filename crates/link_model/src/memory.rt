//! A link in memory.
ghost use Rattle.std.specs.Prelude.{◌≡◌, ◌<◌, ◌≤◌, ◌+◌, length, slice_set, slice_range, [], Some, None, IfOk};
ghost use Rattle.link_model.specs.Carrying.{flipped};
ghost use Rattle.link_model.specs.declared.fate.Fate.TheVariants.{Whole};

use crate::fate::Fate;
use crate::link::{Link, LinkFault};
use bytes::Bytes;
use nrt_base::{NoMemory, Share};
use std::alloc::Global;
use std::marker::Model;

// A byte with its lowest bit flipped.
fn flipped(byte: u8) -> u8
    ensures { result ≡ flipped byte }
{
    if byte % 2 == 0 { byte + 1 } else { byte - 1 }
}

// The bytes with another one at a place.
fn damaged(alloc: Global, bytes: &[u8], place: usize, byte: u8) -> Result<Bytes, NoMemory>
    requires { place < length bytes.now }
    ensures { IfOk result (λ b. b ≡ slice_set bytes.now place byte) }
{
    let mut copy = Vec::with_capacity(alloc, bytes.len())?;
    copy.extend_from_slice(bytes)?;
    copy[place] = byte;
    Ok(Bytes::from_vec(copy)?)
}

// A part of the bytes.
fn part_of(bytes: &Bytes, at: usize, len: usize) -> Result<Bytes, NoMemory>
    requires { at + len ≤ length bytes.now }
    ensures { IfOk result (λ b. b ≡ slice_range bytes.now at (at + len)) }
{
    let end = at + len.min(bytes.len() - at);
    Ok(bytes.slice(at..end)?)
}

/// A link in memory, which does to the next file what it is told to, and carries each other one
/// whole.
#[derive(Drop)]
pub struct MemLink {
    alloc: Global,
    file: Bytes,
    carried: Bytes,
    altered: Option<(usize, u8)>,
    next: Fate,
    faults: u64,
    damages: u64,
}

impl Model for MemLink {
    ghost use Rattle.std.specs.Prelude.{◌≡◌, ◌<◌, ◌^◌};
    ghost use Rattle.link_model.specs.Memory.{LinkState};
    ghost use Rattle.link_model.specs.Carrying.{carried_by};

    ghost Value = { LinkState };

    ghost view = { λ m. record {
      file = m.file;
      altered = m.altered;
      next = m.next;
      faults = m.faults;
      damages = m.damages;
    } };

    ghost invariant = { λ m. (m.carried ≡ carried_by m.altered m.file)
        × (m.faults < 2 ^ 64) × (m.damages < 2 ^ 64) };
}

impl MemLink {
    /// A link that carries each file whole.
    pub fn new(alloc: Global) -> Self
        ensures { result ≡ record { file = []; altered = None; next = Whole; faults = 0; damages = 0 } }
    {
        MemLink {
            alloc,
            file: Bytes::new(),
            carried: Bytes::new(),
            altered: None,
            next: Fate::Whole,
            faults: 0,
            damages: 0,
        }
    }

    /// The link that does this to the next file.
    pub fn with_fate(mut self, fate: Fate) -> Self
        ensures { result ≡ record self { next = fate } }
    {
        self.next = fate;
        self
    }
}

impl Link for MemLink {
    ghost begun = { λ m. m.file };

    ghost altered = { λ m. m.altered };

    ghost faults = { λ m. m.faults };

    ghost damages = { λ m. m.damages };

    ghost fate = { λ m. Some m.next };

    fn begin(&mut self, file: &Bytes) -> Result<(), LinkFault> {
        match self.next {
            Fate::Fail => {
                self.next = Fate::Whole;
                self.faults = self.faults.saturating_add(1);
                Err(LinkFault::Failed)
            }
            Fate::Whole => {
                let file = file.share(self.alloc)?;
                self.carried = file.share(self.alloc)?;
                self.file = file;
                self.altered = None;
                Ok(())
            }
            Fate::Damage(at) => {
                let bytes = file.as_slice();
                let place = at as usize % bytes.len();
                let byte = flipped(bytes[place]);
                let carried = damaged(self.alloc, bytes, place, byte)?;
                self.file = file.share(self.alloc)?;
                self.carried = carried;
                self.altered = Some((place, byte));
                self.next = Fate::Whole;
                Ok(())
            }
        }
    }

    fn fetch(&mut self, at: usize, len: usize) -> Result<Bytes, LinkFault> {
        let part = part_of(&self.carried, at, len)?;
        if let Some((place, _)) = self.altered
            && at <= place
            && place - at < len
        {
            self.damages = self.damages.saturating_add(1);
        }
        Ok(part)
    }

    fn faults(&self) -> u64 {
        self.faults
    }

    fn damages(&self) -> u64 {
        self.damages
    }
}
