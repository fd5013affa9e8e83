//! Events and entries may be handed from thread to thread. An event has so many variants that the check's search for this stops, so each
//! step is a law of its own.

ghost use denote.Param.Send.{IsSend};
ghost use Rattle.history_rules.specs.contracts.entry.Event as event;
ghost use Rattle.history_rules.specs.contracts.entry.Entry as entry;

use documents::{Answer, Op, Query};
use file_names::FileName;
use nrt_base::List;

// A type that the check finds to cross threads.
fn sent<T: Send>()
    ensures { IsSend T.row }
{}

/// An event may cross threads.
pub fn event_crosses()
    ensures { IsSend event.the_row }
{
    sent::<Op>();
    sent::<Query>();
    sent::<Answer>();
    sent::<List<FileName>>();
}

/// An entry may cross threads.
pub fn entry_crosses()
    ensures { IsSend entry.the_row }
{
    event_crosses();
}
