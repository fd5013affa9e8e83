//! What the judge answers of a report.

use history_rules::History;
use nrt_base::LineNo;

/// What a report is. Its lines are counted from 1.
#[derive(Debug, Drop)]
pub enum Judgement {
    /// It is the text of this history, which is legal and serves the script.
    Legal(History),
    /// The entry of this line is the first that breaks the rule of its kind, which has this number.
    Broken { line: usize, rule: u8 },
    /// This line is the first that no line of the script asks for where it stands.
    Unserved(usize),
    /// This line is the first that is the line of no entry.
    Unread(usize),
    /// The report goes well to its end, but this line of the script has no reply, or its replay is not done.
    Unanswered(LineNo),
}
