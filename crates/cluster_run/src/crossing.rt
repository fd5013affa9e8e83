//! A cluster may be handed from thread to thread. The check finds it of each part but events, so a book and its ledger have laws of their own.

ghost use denote.Param.Send.{IsSend};
ghost use Rattle.history_book.specs.contracts.book.Book as book;
ghost use Rattle.merge_tasks.specs.contracts.ledger.Ledger as ledger;

use history_book::{Inner, Stop};
use history_rules::Entry;
use history_tables::{JobTable, Lines, NodeRow, Numbers, Tickets};
use lane_threads::crossing::entry_crosses;
use merge_tasks::FilePlans;

/// A type that the check finds to cross threads. A law.
pub fn sent<T: Send>()
    ensures { IsSend T.row }
{}

/// A book may cross threads. A law.
pub fn book_crosses()
    ensures { IsSend book.the_row }
{
    entry_crosses();
    sent::<Vec<Entry>>();
    sent::<Vec<Inner>>();
    sent::<Vec<Stop>>();
    sent::<Numbers>();
    sent::<Vec<NodeRow>>();
    sent::<Lines>();
    sent::<Tickets>();
    sent::<JobTable>();
}

/// A book with its merges, and with the faults that are planned for files, may cross threads. A law.
pub fn ledger_crosses()
    ensures { IsSend ledger.the_row }
{
    book_crosses();
    sent::<Vec<FilePlans>>();
}
