//! Strings: a length as a vInt, then the bytes.

ghost use Rattle.std.specs.Prelude.{◌≡◌, ◌++◌, ◌<◌, ◌^◌, length, is_ok, if◌then◌else◌};
ghost use Rattle.std.specs.Option.{option_map};
ghost use Rattle.body_forms.specs.Numbers.{string, string_at};

use crate::numbers::vint_of;
use crate::vint::push_vint;
use nrt_base::NoMemory;

/// The string at the front, and the bytes after it: its length as a vInt, then its bytes.
#[tactic(auto, unfolding(crate::specs::Numbers::string_at))]
pub fn string_of(bytes: &[u8]) -> Option<(&[u8], &[u8])>
    ensures { option_map (λ x. (x.0.now, x.1.now)) result ≡ string_at bytes.now }
{
    let (n, rest) = vint_of(bytes)?;
    if rest.len() < n as usize {
        None
    } else {
        Some(rest.split_at(n as usize))
    }
}

/// Puts a string at the end.
pub fn push_string(out: &mut Vec<u8>, text: &[u8]) -> Result<(), NoMemory>
    requires { length text.now < 2 ^ 32 }
    ensures { out.new.items
        ≡ (if is_ok result then out.old.items ++ string text.now else out.old.items) }
{
    let start = out.len();
    push_vint(out, text.len() as u32)?;
    let text_is_put = out.extend_from_slice(text);
    if text_is_put.is_err() {
        out.truncate(start);
    }
    text_is_put
}
