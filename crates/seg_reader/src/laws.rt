//! What holds of segments and of directories: theorems for readers. No function here does anything.

ghost use Rattle.std.specs.Prelude.{◌≡◌, List};
ghost use Rattle.nrt_base.specs.declared.doc.Doc.{Doc};
ghost use Rattle.documents.specs.Documents.{IsAscending};
ghost use Rattle.disk_model.specs.Disk.{Name, Content};
ghost use Rattle.segment_infos.specs.declared.infos.SegRecord.{SegRecord};
ghost use Rattle.segment_infos.specs.declared.infos.Infos.{Infos};
ghost use Rattle.seg_reader.specs.declared.parts.SegParts.{SegParts};
ghost use Rattle.seg_reader.specs.Shown.{Shown};
ghost use Rattle.seg_reader.specs.Files.{IsSegmentOf};
ghost use Rattle.seg_reader.specs.Stands.{StandsFor};

/// Files show one segment at most.
pub fn one_segment()
    ensures { (parts : SegParts) (r : SegRecord) (shown other : Shown)
        → IsSegmentOf parts r shown → IsSegmentOf parts r other → shown ≡ other }
{}

/// A directory stands for one list of documents at most.
pub fn one_list_of_documents()
    ensures { (reads : Name → Content) (infos : Infos) (docs others : List Doc)
        → StandsFor reads infos docs → StandsFor reads infos others → docs ≡ others }
{}

/// The documents that a directory stands for ascend by key, so no two of them have one key.
pub fn documents_ascend()
    ensures { (reads : Name → Content) (infos : Infos) (docs : List Doc)
        → StandsFor reads infos docs → IsAscending docs }
{}
