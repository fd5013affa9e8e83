//! Laws of the grammar: bytes spell one script at most, or have one first refused line.

ghost use Rattle.script_text.specs.Exact.{NeverBoth, OneScript, OneRefusal};

/// No bytes both spell a script and have a line that is refused.
pub fn is_read_or_refused()
    ensures { NeverBoth }
{}

/// Bytes spell one script at most.
pub fn one_script()
    ensures { OneScript }
{}

/// Bytes have one first refused line at most, with one cause.
pub fn one_refusal()
    ensures { OneRefusal }
{}
