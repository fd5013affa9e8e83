//! All that a publish needs memory for.

use bytes::Bytes;
use file_names::FileName;
use nrt_base::List;
use seg_reader::Segment;
use segment_infos::Infos;

/// The lists that a publish makes before its first write: the new infos and segments, for the writer and for the point,
/// the names of their files, what is written, what is counted, and what is given back at the end.
#[derive(Drop)]
pub struct Ready {
    pub infos: Infos,
    pub point_infos: Infos,
    pub segs: List<Segment>,
    pub readers: List<Segment>,
    pub names: List<FileName>,
    pub point_names: List<FileName>,
    pub files: List<(FileName, Bytes)>,
    pub written: List<FileName>,
    pub twice: List<FileName>,
    pub gone: List<FileName>,
}
