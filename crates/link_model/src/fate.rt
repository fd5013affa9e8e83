//! What is to become of a file.

/// What is to become of a file on its way.
#[derive(Clone, Copy, Debug, PartialEq, Eq)]
pub enum Fate {
    /// It is carried whole.
    Whole,
    /// The next begin fails.
    Fail,
    /// The lowest bit of the byte at this place, modulo the file's length, is flipped.
    Damage(u32),
}
