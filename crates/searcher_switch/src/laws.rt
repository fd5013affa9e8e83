//! What holds of a node, for proofs to call. No function here does anything.

ghost use Rattle.std.specs.Prelude.{◌≡◌, List, ℕ};
ghost use Rattle.std.specs.List.{Contains, flat_map};
ghost use Rattle.nrt_base.specs.declared.doc.Doc.{Doc};
ghost use Rattle.disk_model.specs.Disk.{Name, Content, Cells, reads_of};
ghost use Rattle.file_deleter.specs.Holdings.{Holdings, times};
ghost use Rattle.file_deleter.specs.Moves.{Shifts};
ghost use Rattle.commit_steps.specs.Given.{Infos, files_of_segment, AreFilesOf};
ghost use Rattle.seg_reader.specs.Stands.{StandsFor};
ghost use Rattle.commit_steps.specs.Commits.{ImagesAre};
ghost use Rattle.commit_steps.specs.Book.{shown_by, book_names, book_after, HasBegun};
ghost use Rattle.searcher_switch.specs.Node.{IsWholeNode, HoldsNoMore};
ghost use Rattle.searcher_switch.specs.Standing.{IsStanding, ImagesStand};
ghost use Rattle.searcher_switch.specs.Appearing.{AppearsOnly, IsNameInFlight};

use commit_steps::CommitBook;

/// Each image of a node's directory shows the last commit, or the one in flight, or nothing where there is no last one.
pub fn images()
    ensures { (cells : Cells) (holdings : Holdings) (others : List Name) (book : CommitBook)
        → IsWholeNode cells holdings others book → ImagesAre cells book.last (shown_by book.stage) }
{}

/// Each such image is of the documents that the directory now has of its commit.
pub fn images_stand()
    ensures { (cells : Cells) (holdings : Holdings) (others : List Name) (book : CommitBook)
        → IsWholeNode cells holdings others book → IsStanding (reads_of cells) book
        → ImagesStand cells book.last (shown_by book.stage) }
{}

/// Where the files of infos read the same, the infos are of the same documents.
pub fn stands_along()
    ensures { (before after : Name → Content) (infos : Infos) (docs : List Doc)
        → ((q : Name) → Contains (flat_map files_of_segment infos.segs) q → after q ≡ before q)
        → StandsFor before infos docs → StandsFor after infos docs }
{}

/// A step of the book holds no file once more but the commit's own; nor does the beginning of a commit hold one that
/// nobody held.
pub fn holds_no_more()
    ensures step { (before after : Cells) (old new : Holdings) (hs : List Name) (was now : CommitBook)
        → IsWholeNode before old hs was → IsWholeNode after new hs now → now ≡ book_after was
        → HoldsNoMore old new }
    ensures begun { (cells : Cells) (old new : Holdings) (hs : List Name) (was now : CommitBook)
        (infos : Infos) (names : List Name)
        → IsWholeNode cells old hs was → IsWholeNode cells new hs now → HasBegun infos was now
        → AreFilesOf infos names → ((q : Name) → times hs q ≡ 0 → times names q ≡ 0)
        → HoldsNoMore old new }
{}

/// A step of the book lets no name come to stand but the two of the commit in flight.
pub fn step_appears()
    ensures step { (before after : Cells) (old new : Holdings) (hs : List Name) (was now : CommitBook)
        → IsWholeNode before old hs was
        → Shifts (book_names was) (book_names now) old new before after → now ≡ book_after was
        → AppearsOnly (IsNameInFlight was.stage) before after }
    ensures stopped { (before after : Cells) (old new : Holdings) (hs : List Name)
        (was now : CommitBook) → IsWholeNode before old hs was
        → Shifts (book_names was) (book_names now) old new before after → now ≡ was
        → AppearsOnly (IsNameInFlight was.stage) before after }
{}
