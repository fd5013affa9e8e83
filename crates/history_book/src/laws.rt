//! Laws of what printed entries tell of inner work.

ghost use Rattle.history_book.specs.ToldReads.{ReadsTold, LaterWasBegun};

/// Where each printed entry tells what is so, each did where it came.
pub fn reads_told()
    ensures { ReadsTold }
{}

/// Where the last job of a lane was overtaken, a job for that version began at its node.
pub fn later_was_begun()
    ensures { LaterWasBegun }
{}
