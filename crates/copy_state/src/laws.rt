//! What holds of metadata, as theorems for readers. No function here does anything, and none is called.

ghost use Rattle.std.specs.Prelude.{◌≡◌, ℕ, ◌^◌, ◌<◌, List, length, None};
ghost use Rattle.codec_frame.specs.Bytes.{AreBytes};
ghost use Rattle.codec_frame.specs.Frame.{Wanted, IsFramed};
ghost use Rattle.copy_state.specs.Meta.{meta_fault, IsMetaOf};
ghost use Rattle.copy_state.specs.declared.meta.FileMetaData.{FileMetaData};

/// A file has one metadata.
pub fn one_meta()
    ensures { (bytes : List ℕ) (m n : FileMetaData) → IsMetaOf bytes m → IsMetaOf bytes n → m ≡ n }
{}

/// The metadata of a framed file is read.
pub fn framed_readable()
    ensures { (want : Wanted) (version : ℕ) (id body bytes : List ℕ)
        → want.max < 2 ^ 32 → length want.name < 128 → length want.suffix < 256 → AreBytes bytes
        → IsFramed want version id body bytes → meta_fault bytes ≡ None }
{}
