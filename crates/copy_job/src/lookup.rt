//! The metadata of a file in a list that ascends by name.

ghost use Rattle.std.specs.Prelude.{◌≡◌};
ghost use Rattle.std.specs.Option.{option_map};
ghost use Rattle.std.specs.List.Sorted.{IsStrictlySortedBy};
ghost use Rattle.std.specs.Ordering.{nat_cmp};
ghost use Rattle.std.specs.Cmp.Lexicographic.{slice_cmp};
ghost use Rattle.copy_state.specs.States.{meta_names, meta_in};

use copy_state::FileMetaData;
use file_names::FileName;

/// The metadata that is listed under a name.
pub(crate) fn meta_of<'a>(
    files: &'a [(FileName, FileMetaData)],
    name: &FileName,
) -> Option<&'a FileMetaData>
    requires { IsStrictlySortedBy (slice_cmp nat_cmp) (meta_names files.now) }
    ensures { option_map (λ m. m.now) result ≡ meta_in files.now name.now }
{
    match files.binary_search_by_key(name, |file| file.0) {
        Ok(place) => Some(&files[place].1),
        Err(_) => None,
    }
}
