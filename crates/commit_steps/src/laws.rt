//! What holds of a book beside other calls, as a theorem for readers. No function here does anything, and none is called.

ghost use Rattle.disk_model.specs.Disk.{Cells};
ghost use Rattle.file_deleter.specs.Holdings.{Holdings, IsWhole};
ghost use Rattle.commit_steps.specs.Commits.{ImagesAre};
ghost use Rattle.commit_steps.specs.Book.{shown_by, IsBookSound};
ghost use Rattle.commit_steps.specs.Beside.{IsBeside};

use crate::stage::CommitBook;

/// A call beside a book leaves it sound, and where a book is sound each image shows its last commit, or the one in flight, or
/// nothing where there is no last one.
pub fn sound_beside()
    ensures sound { (book : CommitBook) (old new : Holdings) (before after : Cells)
        → IsBeside book old new before after → IsWhole before old
        → IsBookSound before old book → IsBookSound after new book }
    ensures images { (book : CommitBook) (holdings : Holdings) (cells : Cells)
        → IsBookSound cells holdings book → ImagesAre cells book.last (shown_by book.stage) }
{}
