//! The line that says a judgement.

ghost use Rattle.std.specs.Prelude.{◌≡◌, IfOk};
ghost use Rattle.report_judge.specs.Verdicts.{verdict_text};

use crate::judgement::Judgement;
use nrt_base::NoMemory;
use std::alloc::Global;

/// The line that says a judgement: `legal ENTRIES`, `broken LINE rule R`, `unserved LINE`, `unread LINE` or `unanswered SCRIPTLINE`.
pub fn verdict(alloc: Global, judgement: &Judgement) -> Result<Vec<u8>, NoMemory>
    ensures { IfOk result (λ text. text.items ≡ verdict_text judgement.now) }
{
    let text = match judgement {
        Judgement::Legal(history) => {
            let count = history.entries.as_slice().len();
            format!(in alloc; "legal {count}\n")?
        }
        Judgement::Broken { line, rule } => format!(in alloc; "broken {line} rule {rule}\n")?,
        Judgement::Unserved(line) => format!(in alloc; "unserved {line}\n")?,
        Judgement::Unread(line) => format!(in alloc; "unread {line}\n")?,
        Judgement::Unanswered(line) => format!(in alloc; "unanswered {}\n", line.0)?,
    };
    let mut out = Vec::new(alloc);
    out.extend_from_slice(text.as_bytes())?;
    Ok(out)
}
