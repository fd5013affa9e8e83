//! vInts: numbers of seven bits a byte, the lowest first.

ghost use Rattle.std.specs.Prelude.{◌≡◌, ◌++◌, ◌↔◌, ◌≤◌, ◌<◌, ℕ, length, IsErrOf, OnOk, OnErr};
ghost use Rattle.body_forms.specs.VInts.{BeginsWithVInt, EndsWithinVInt, PassesVInt, vint, vint_read};

use nrt_base::NoMemory;
use thiserror::Error;

/// Why bytes do not begin with a vInt.
#[derive(Clone, Copy, Debug, PartialEq, Eq, Error)]
pub enum VIntFault {
    /// They end before a byte below 128 within five bytes.
    #[error("a number of variable length is cut off before its last byte")]
    Short,
    /// The fifth byte is above 15.
    #[error("a number of variable length is above 4294967295")]
    Long,
}

/// How many bytes the shortest form of a number takes.
pub fn vint_len(n: u32) -> usize
    ensures { result ≡ length (vint n) }
{
    match n {
        0..=0x7f => 1,
        0x80..=0x3fff => 2,
        0x4000..=0x1f_ffff => 3,
        0x20_0000..=0xfff_ffff => 4,
        _ => 5,
    }
}

/// The number at the front of the bytes, in its shortest form or a longer one, and how many bytes it takes.
pub fn read_vint(bytes: &[u8]) -> Result<(u32, usize), VIntFault>
    ensures number { (n taken : ℕ) → (result ≡ Ok (n, taken))
        ↔ BeginsWithVInt bytes.now n taken }
    ensures short { IsErrOf result VIntFault.Short ↔ EndsWithinVInt bytes.now }
    ensures long { IsErrOf result VIntFault.Long ↔ PassesVInt bytes.now }
{
    read_within(4, bytes)
}

// At most so many bytes may follow the first.
fn read_within(more: u8, bytes: &[u8]) -> Result<(u32, usize), VIntFault>
    requires { more ≤ 4 }
    ensures { result ≡ vint_read more bytes.now }
{
    match bytes {
        [] => Err(VIntFault::Short),
        [byte, rest @ ..] => {
            let first = u32::from(*byte);
            if more == 0 {
                if first < 16 {
                    Ok((first, 1))
                } else {
                    Err(VIntFault::Long)
                }
            } else if first < 128 {
                Ok((first, 1))
            } else {
                let (high, taken) = read_within(more - 1, rest)?;
                Ok((first - 128 + 128 * high, taken + 1))
            }
        }
    }
}

/// Puts the shortest form of a number at the end.
pub fn push_vint(out: &mut Vec<u8>, n: u32) -> Result<(), NoMemory>
    ensures ok { OnOk result (out.new.items ≡ out.old.items ++ vint n) }
    ensures err { OnErr result (out.new.items ≡ out.old.items) }
{
    let mut form = [0; 5];
    let mut len = 0usize;
    let mut high = n;
    while high >= 128 {
        form[len] = (high % 128) as u8 + 128;
        len += 1;
        high /= 128;
    }
    form[len] = high as u8;
    out.extend_from_slice(&form[..=len])
}
