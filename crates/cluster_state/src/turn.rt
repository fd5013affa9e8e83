//! What a call of a line hands out.

/// What a call hands out.
#[derive(Debug, Drop)]
pub enum Turn<W> {
    /// Work, to be brought back.
    Work(W),
    /// The line has its reply.
    Done,
    /// Nothing: the line comes again.
    Busy,
}
