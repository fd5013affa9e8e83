//! A value with a history.
ghost use Rattle.std.specs.Prelude.{ℕ, List};

/// A value that has a history, which is a list of entries.
///
/// `history` is that list, the oldest entry first. `names` is the number of the seat that may append the entry, or 0 where any seat may.
pub trait Grows {
    type Entry;

    ghost history: { Self → List Self.Entry };

    ghost names: { Self.Entry → ℕ };
}
