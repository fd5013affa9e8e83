//! The numbers of the commits that a directory's names show.

ghost use Rattle.std.specs.Prelude.{◌≡◌, ◌<◌, ◌≤◌, ◌^◌, ◌++◌, IfSome};
ghost use Rattle.file_names.specs.Names.{number_of_commit, number_of_pending};
ghost use Rattle.segment_infos.specs.Commits.{commit_numbers, pending_numbers, IsGreatest, IsNext};

use file_names::{FileName, commit_of, pending_of};

// The number of the commit that has this name. A function of another crate can't be passed by its name.
fn commit_in(name: &FileName) -> Option<u64>
    ensures number { result ≡ number_of_commit name.now }
    ensures below { IfSome result (λ n. n < 2 ^ 62) }
{
    commit_of(name)
}

// The number of the commit in preparation that has this name.
fn pending_in(name: &FileName) -> Option<u64>
    ensures number { result ≡ number_of_pending name.now }
    ensures below { IfSome result (λ n. n < 2 ^ 62) }
{
    pending_of(name)
}

/// The greatest number of a commit among the names.
pub fn last_commit(names: &[FileName]) -> Option<u64>
    ensures greatest { IsGreatest (commit_numbers names.now) result }
    ensures below { IfSome result (λ n. n < 2 ^ 62) }
{
    names.iter().filter_map(commit_in).max()
}

// The greatest number of a commit in preparation among the names.
fn last_pending(names: &[FileName]) -> Option<u64>
    ensures greatest { IsGreatest (pending_numbers names.now) result }
    ensures below { IfSome result (λ n. n < 2 ^ 62) }
{
    names.iter().filter_map(pending_in).max()
}

/// The number for the next commit: one above the greatest number of a commit, also of one in preparation, among the names, or 1
/// where there is none.
pub fn next_commit(names: &[FileName]) -> u64
    ensures next { IsNext (commit_numbers names.now ++ pending_numbers names.now) result }
    ensures below { result ≤ 2 ^ 62 }
{
    let last = last_commit(names).unwrap_or(0);
    let pending = last_pending(names).unwrap_or(0);
    last.max(pending) + 1
}
