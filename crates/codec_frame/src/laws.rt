//! What holds of frames, as theorems for readers. No function here does anything, and none is called.

ghost use Rattle.std.specs.Prelude.{◌≡◌, ◌≢◌, ℕ, ◌^◌, ◌<◌, List};
ghost use Rattle.codec_frame.specs.Bytes.{AreBytes, DifferInOne};
ghost use Rattle.codec_frame.specs.Checking.{HasFields};
ghost use Rattle.codec_frame.specs.Division.{crc_of};
ghost use Rattle.codec_frame.specs.Frame.{Wanted, IsFramed, IsFramedAs};

/// Two lists of bytes that differ in exactly one have two CRC-32s.
pub fn altered_byte_changes_crc()
    ensures { (a b : List ℕ) → AreBytes a → AreBytes b → DifferInOne a b
        → crc_of a ≢ crc_of b }
{}

/// Two lists of bytes that differ in exactly one are not both framed, whatever is wanted of each. So
/// no byte of a framed file can be altered without a fault.
pub fn altered_byte_shows()
    ensures { (a b : List ℕ) → AreBytes a → AreBytes b → DifferInOne a b
        → (want other : Wanted) → IsFramedAs want a → IsFramedAs other b → ⊥ }
{}

/// A framed file has one version, one id and one body.
pub fn one_reading()
    ensures { (want : Wanted) → want.max < 2 ^ 32
        → (bytes : List ℕ) (version v : ℕ) (id i body b : List ℕ)
        → IsFramed want version id body bytes → IsFramed want v i b bytes
        → (version ≡ v) × (id ≡ i) × (body ≡ b) }
{}

/// A framed file has the header and the footer that a check looks for, and its length.
pub fn framed_fields()
    ensures { (want : Wanted) → want.max < 2 ^ 32
        → (version : ℕ) (id body bytes : List ℕ) → AreBytes bytes
        → IsFramed want version id body bytes → HasFields want version id body bytes }
{}
