//! Which neighbouring segments are merged.
#![tactic(auto)]

ghost use Rattle.std.specs.Prelude.{◌≡◌, ◌↔◌, ◌+◌, ◌≤◌, ◌<◌, length, IsTrue, MatchOption};
ghost use Rattle.merge_choice.specs.Choice.{IsClass, IsRange, IsFirstRange, HasNoRange};

// The class of a size: the greatest power of the factor that it reaches, and 0 for 0.
fn class_of(size: u32, factor: u32) -> u32
    requires { 2 ≤ factor }
    ensures { IsClass factor size result }
{
    let mut class = 0;
    let mut power: u64 = 1;
    while power * u64::from(factor) <= u64::from(size) {
        power *= u64::from(factor);
        class += 1;
    }
    class
}

// Whether so many neighbours from here on have a size, and all of one class.
fn is_range(sizes: &[Option<u32>], at: usize, factor: u32) -> bool
    requires some { 2 ≤ factor }
    requires within { at < length sizes.now }
    ensures { IsTrue result ↔ IsRange factor sizes.now at (at + factor) }
{
    if sizes.len() - at < factor as usize {
        return false;
    }
    let Some(first) = sizes[at] else {
        return false;
    };
    let class = class_of(first, factor);
    for next in at..at + factor as usize {
        match sizes[next] {
            Some(size) => {
                if class_of(size, factor) != class {
                    return false;
                }
            }
            None => return false,
        }
    }
    true
}

/// The first range of as many neighbours as the factor that all have a size and are of one class: where it begins, and where
/// it ends. None comes exactly where there is no such range.
pub fn choose(sizes: &[Option<u32>], factor: u32) -> Option<(usize, usize)>
    requires { 2 ≤ factor }
    ensures { MatchOption result (HasNoRange factor sizes.now)
        (λ range. IsFirstRange factor sizes.now range.0 × (range.1 ≡ range.0 + factor)) }
{
    for at in 0..sizes.len() {
        if is_range(sizes, at, factor) {
            return Some((at, at + factor as usize));
        }
    }
    None
}
