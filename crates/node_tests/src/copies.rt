//! Files that are copied over links.

ghost use Rattle.std.specs.Prelude.{◌≡◌, ◌∷◌, [], None, IfOk};
ghost use Rattle.codec_frame.specs.Bytes.{AreBytes};
ghost use Rattle.codec_frame.specs.Checking.{HasFooter};

use bytes::Bytes;
use codec_frame::{write_footer, write_index_header};
use copy_job::{JobFault, Part, copy_file};
use copy_state::read_meta;
use file_names::{FileName, file_name};
use link_model::{Fate, Link, LinkFault, MemLink};
use nrt_base::NoMemory;
use std::alloc::Global;
use std::test::Fail;

// A link that notes how much is fetched, and fails at one of the fetches.
#[derive(Drop)]
struct NotedLink {
    link: MemLink,
    lengths: [usize; 4],
    fetches: usize,
    fails_at: usize,
    faults: u64,
}

impl Link for NotedLink {
    ghost begun = { λ l. l.link.file };

    ghost altered = { λ l. l.link.altered };

    ghost faults = { λ l. l.faults };

    ghost damages = { λ l. l.link.damages };

    ghost fate = { λ _. None };

    fn begin(&mut self, file: &Bytes) -> Result<(), LinkFault> {
        match self.link.begin(file) {
            Err(LinkFault::Failed) => {
                self.faults = self.faults.saturating_add(1);
                Err(LinkFault::Failed)
            }
            begun => begun,
        }
    }

    fn fetch(&mut self, at: usize, len: usize) -> Result<Bytes, LinkFault> {
        if self.fetches == self.fails_at {
            self.faults = self.faults.saturating_add(1);
            return Err(LinkFault::Failed);
        }
        if let Some(place) = self.lengths.get_mut(self.fetches) {
            *place = len;
        }
        self.fetches = self.fetches.saturating_add(1);
        match self.link.fetch(at, len) {
            Ok(chunk) => Ok(chunk),
            Err(_) => Err(LinkFault::Memory),
        }
    }

    fn faults(&self) -> u64 {
        self.faults
    }

    fn damages(&self) -> u64 {
        self.link.damages()
    }
}

fn noted(alloc: Global, fails_at: usize) -> NotedLink {
    NotedLink {
        link: MemLink::new(alloc),
        lengths: [0; 4],
        fetches: 0,
        fails_at,
        faults: 0,
    }
}

// A slice has bytes.
fn fits(bytes: &[u8])
    ensures { AreBytes bytes.now }
{
    let _ = bytes.len();
}

/// The name of one letter.
pub fn named(letter: u8) -> Result<FileName, Fail>
    ensures { IfOk result (λ name. name ≡ letter ∷ []) }
{
    match file_name(&[letter]) {
        Ok(name) => Ok(name),
        Err(_) => Err(Fail::new("a name")),
    }
}

/// The file of this body.
pub fn framed(alloc: Global, body: &[u8]) -> Result<Bytes, NoMemory>
    ensures { IfOk result HasFooter }
{
    let id = [0, 0, 0, 0, 0, 0, 0, 1, 0, 0, 0, 0, 0, 0, 0, 0];
    let mut out = Vec::new(alloc);
    write_index_header(&mut out, b"NrtDocs", 1, &id, b"")?;
    out.extend_from_slice(body)?;
    write_footer(&mut out)?;
    let file = Bytes::from_vec(out)?;
    fits(file.as_slice());
    Ok(file)
}

fn copied<L: Link>(
    alloc: Global,
    link: &mut L,
    name: &FileName,
    file: &Bytes,
) -> Result<Part, JobFault>
    requires { HasFooter file.now }
{
    match read_meta(alloc, file.as_slice()) {
        Ok(meta) => copy_file(alloc, link, file, name, &meta),
        Err(_) => Err(JobFault::Memory),
    }
}

// The two numbers of a damaged copy.
fn damage_of(answer: Result<Part, JobFault>) -> Option<(u64, u64)> {
    match answer {
        Err(JobFault::Damaged { want, found, .. }) => Some((want, found)),
        _ => None,
    }
}

#[test]
fn a_file_damaged_at_each_byte(rt: HostRuntime) -> Result<(), Fail> {
    let name = named(b'a')?;
    let file = framed(
        rt.alloc(),
        &[0, 0, 0, 1, 0, 0, 0, 0, 0, 0, 0, 3, 1, b'a', b'x'],
    )?;
    for at in 0..64 {
        let mut link = MemLink::new(rt.alloc()).with_fate(Fate::Damage(at));
        let damage = damage_of(copied(rt.alloc(), &mut link, &name, &file));
        let (want, found) = damage.ok_or("damage")?;
        assert_eq!(rt; want, 0x1b6a_c953);
        assert!(rt; at != 36 || found == 0x7e0d_f215);
    }
    Ok(())
}

#[test]
fn a_long_file_comes_in_three_chunks(rt: HostRuntime) -> Result<(), Fail> {
    let name = named(b'a')?;
    let mut body = Vec::new(rt.alloc());
    body.resize(69_951, 0)?;
    let file = framed(rt.alloc(), body.as_slice())?;
    for (fails_at, lengths) in [
        (0, [0, 0, 0, 0]),
        (1, [32_768, 0, 0, 0]),
        (2, [32_768, 32_768, 0, 0]),
        (3, [32_768, 32_768, 4_464, 0]),
    ] {
        let mut link = noted(rt.alloc(), fails_at);
        let is_copied = copied(rt.alloc(), &mut link, &name, &file).is_ok();
        assert_eq!(rt;
            (is_copied, link.faults == 0),
            (fails_at == 3, fails_at == 3)
        );
        assert_eq!(rt; link.lengths, lengths);
    }
    Ok(())
}
