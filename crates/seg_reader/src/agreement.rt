//! Whether the numbers in the files are those of infos, and the postings have the format that the info file gives.

ghost use Rattle.std.specs.Prelude.{◌≡◌, [], ◌∷◌};
ghost use Rattle.std.specs.List.{find};
ghost use Rattle.postings_plain.specs.Postings.{format_number};
ghost use Rattle.seg_reader.specs.Faults.{number, differs, live_numbers, numbers_of};
ghost use Rattle.seg_reader.specs.Reading.{compared};

use crate::parts::{SegFault, SegFile};
use crate::reading::Contents;
use live_bits::LiveBits;
use postings_plain::Format;
use segment_infos::SegRecord;

// Whether a file's number is the one that is wanted.
fn compare(part: SegFile, want: u64, found: u64) -> Result<(), SegFault>
    ensures { result ≡ compared (find differs (number part want found ∷ [])) }
{
    if want == found {
        Ok(())
    } else {
        Err(SegFault::Disagrees { part, want, found })
    }
}

// Whether the numbers of the live file are those of the record, where there is one.
fn compare_live(live: &Option<LiveBits>, record: &SegRecord) -> Result<(), SegFault>
    ensures { result ≡ compared (find differs (live_numbers record.now live.now)) }
{
    let Some(live) = live else {
        return Ok(());
    };
    let (rows, live_rows) = live.counts();
    compare(SegFile::Live, u64::from(record.rows), u64::from(rows))?;
    compare(SegFile::Live, u64::from(record.live), u64::from(live_rows))
}

// Whether the version of postings is the format that the info file gives.
fn compare_format(format: Format, want: u8) -> Result<(), SegFault>
    ensures { result
        ≡ compared (find differs (number SegFile.Post want (format_number format) ∷ [])) }
{
    compare(SegFile::Post, u64::from(want), u64::from(format.number()))
}

/// Whether the numbers in the files are those of the record, and the version of the postings that of the info file.
pub fn compare_numbers(contents: &Contents, record: &SegRecord) -> Result<(), SegFault>
    ensures { result ≡ compared (find differs (numbers_of record.now contents.now)) }
{
    let rows = u64::from(record.rows);
    let info = contents.info;
    compare(SegFile::Docs, rows, u64::from(contents.docs.len()))?;
    compare(SegFile::Post, rows, contents.post_rows)?;
    compare_format(contents.post.format(), info.format)?;
    compare(SegFile::Info, record.seg.0, info.seg.0)?;
    compare(SegFile::Info, rows, u64::from(info.rows))?;
    compare_live(&contents.live, record)
}
