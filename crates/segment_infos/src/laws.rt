//! What holds of infos, of their files and of commits' numbers: theorems for readers. No function here does anything.

ghost use Rattle.std.specs.Prelude.{◌≡◌, ◌↔◌, ℕ, ◌<◌, ◌^◌, List};
ghost use Rattle.std.specs.List.{All, Contains};
ghost use Rattle.file_names.specs.Names.{commit_name_of, pending_name_of};
ghost use Rattle.body_forms.specs.File.{IsOneToOne};
ghost use Rattle.segment_infos.specs.declared.infos.Infos.{Infos};
ghost use Rattle.segment_infos.specs.SegmentInfo.{SpellsSegmentInfo, IsInfoFile};
ghost use Rattle.segment_infos.specs.Infos.{SpellsInfos, IsInfosFile};
ghost use Rattle.segment_infos.specs.Files.{AreFilesOf};
ghost use Rattle.segment_infos.specs.Commits.{commit_numbers, pending_numbers, IsOfNoCommit};

/// What is said of a segment has one spelling, and bytes spell one thing at most; the same of files.
pub fn one_info_spelling()
    ensures body { IsOneToOne SpellsSegmentInfo }
    ensures file { (id : List ℕ) → IsOneToOne (λ bytes info. IsInfoFile id info bytes) }
{}

/// Infos have one spelling, and bytes spell one infos at most; the same of files.
pub fn one_spelling()
    ensures body { IsOneToOne SpellsInfos }
    ensures file { IsOneToOne (λ bytes infos. IsInfosFile infos bytes) }
{}

/// Infos have one list of files.
pub fn one_list_of_files()
    ensures { (infos : Infos) (names others : List (List ℕ)) → AreFilesOf infos names
        → AreFilesOf infos others → names ≡ others }
{}

/// No file that infos name is a commit, or one in preparation.
pub fn files_are_no_commits()
    ensures { (infos : Infos) (names : List (List ℕ)) → AreFilesOf infos names
        → All IsOfNoCommit names }
{}

/// The numbers among names are those whose commit's name is among them.
pub fn numbers_of_names()
    ensures commits { (names : List (List ℕ)) (n : ℕ) → Contains (commit_numbers names) n
        ↔ ((0 < n) × (n < 2 ^ 62) × Contains names (commit_name_of n)) }
    ensures pending { (names : List (List ℕ)) (n : ℕ) → Contains (pending_numbers names) n
        ↔ ((0 < n) × (n < 2 ^ 62) × Contains names (pending_name_of n)) }
{}
