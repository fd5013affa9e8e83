//! Laws of histories: what the definitions come to. Each is a call that does nothing, and what it ensures is the law.

ghost use Rattle.std.specs.Prelude.{reverse};
ghost use Rattle.history_rules.specs.Points.{points_of};
ghost use Rattle.history_rules.specs.Legal.{IsLegal};
ghost use Rattle.history_rules.specs.Laws.{AnswersAreScans, AsksAnswerAtTickets, DocumentsAreFew, DocumentsStay, HaveTheirDocuments, NeverFalls, OnePointPerVersion, OperationsWereAccepted, ReopensWhereCommitted, SearchesNeverGoBack, VersionsAscend};

use crate::entry::History;

/// Two points of one version are one point. It has the documents of its version, which stay, whatever happens later.
pub fn points_are_fixed(h: &History)
    requires { IsLegal h.now }
    ensures ascending { VersionsAscend (points_of (reverse h.now.entries)) }
    ensures one { OnePointPerVersion (points_of (reverse h.now.entries)) }
    ensures documents { HaveTheirDocuments (reverse h.now.entries)
        (points_of (reverse h.now.entries)) }
    ensures stay { DocumentsStay h.now }
{}

/// A running node's version never falls between its crashes.
pub fn versions_never_fall(h: &History)
    requires { IsLegal h.now }
    ensures { NeverFalls h.now }
{}

/// Every answer is the scan of the documents at its version.
pub fn answers_are_scans(h: &History)
    requires { IsLegal h.now }
    ensures { AnswersAreScans h.now }
{}

/// Searches at one node never go back while it does not crash, and one at a ticket is answered where the ticket stands.
pub fn searches_never_go_back(h: &History)
    requires { IsLegal h.now }
    ensures back { SearchesNeverGoBack h.now }
    ensures tickets { AsksAnswerAtTickets h.now }
{}

/// A reopened node stands at the version of its last commit or of a later one that was begun.
pub fn nodes_reopen_where_committed(h: &History)
    requires { IsLegal h.now }
    ensures { ReopensWhereCommitted h.now }
{}

/// The operations of a point are operations accepted before it, each once, in order.
pub fn operations_were_accepted(h: &History)
    ensures { OperationsWereAccepted h.now }
{}

/// A point has no more documents than operations were accepted before it.
pub fn documents_are_few(h: &History)
    ensures { DocumentsAreFew h.now }
{}
