//! What holds of messages and streams, as theorems for readers. No function here does anything, and none is called.

ghost use Rattle.std.specs.Prelude.{◌≡◌, ℕ, List, ◌++◌};
ghost use Rattle.wire_frames.specs.declared.message.Message.{Message};
ghost use Rattle.wire_frames.specs.declared.message.WireFault.{WireFault};
ghost use Rattle.wire_frames.specs.Wire.{wire_of, IsFramable};
ghost use Rattle.wire_frames.specs.Streams.{AreMessagesOf, BeginsWith, IsUnfinished, IsStreamFault};

/// The bytes of no message begin those of another.
pub fn one_message()
    ensures { (m n : Message) (x y : List ℕ) → IsFramable m → IsFramable n
        → wire_of m ++ x ≡ wire_of n ++ y → (m ≡ n) × (x ≡ y) }
{}

/// A stream has one list of messages, and one rest.
pub fn one_reading()
    ensures { (stream : List ℕ) (ms ns : List Message) (r q : List ℕ)
        → AreMessagesOf stream ms r → AreMessagesOf stream ns q → (ms ≡ ns) × (r ≡ q) }
{}

/// A stream has one first fault, and none where it is messages and the front of another.
pub fn one_fault()
    ensures one { (stream : List ℕ) (f g : WireFault)
        → IsStreamFault stream f → IsStreamFault stream g → f ≡ g }
    ensures none { (stream : List ℕ) (ms : List Message) (r : List ℕ) (f : WireFault)
        → BeginsWith stream ms r → IsUnfinished r → IsStreamFault stream f → ⊥ }
{}

/// Messages of pieces are those of the stream, however it was cut.
pub fn any_cutting()
    ensures { (stream piece : List ℕ) (ms ns : List Message) (held rest : List ℕ)
        → BeginsWith stream ms held → BeginsWith (held ++ piece) ns rest
        → BeginsWith (stream ++ piece) (ms ++ ns) rest }
{}
