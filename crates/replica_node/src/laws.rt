//! What holds of directories and of points, for proofs to call. No function here does anything.

ghost use Rattle.std.specs.Prelude.{◌≡◌, ◌<◌, ℕ, List, [], Some, None, false, Contains};
ghost use Rattle.std.specs.List.{All, flat_map};
ghost use Rattle.nrt_base.specs.declared.doc.Doc.{Doc};
ghost use Rattle.disk_model.specs.Disk.{Name, Content, Cells, Image, restarted};
ghost use Rattle.file_deleter.specs.Holdings.{Holdings, count_of};
ghost use Rattle.segment_infos.specs.declared.infos.Infos.{Infos};
ghost use Rattle.segment_infos.specs.Files.{files_of_segment, AreFilesOf};
ghost use Rattle.seg_reader.specs.Shown.{Shown};
ghost use Rattle.seg_reader.specs.Stands.{StandsFor, AreSegmentsOf};
ghost use Rattle.copy_state.specs.declared.meta.FileMetaData.{FileMetaData};
ghost use Rattle.copy_state.specs.States.{meta_names};
ghost use Rattle.copy_job.specs.declared.fault.JobFault.{JobFault};
ghost use Rattle.copy_job.specs.Jobs.{Job, reads_under};
ghost use Rattle.replica_opening.specs.Known.{IsLasting, HasMeta};
ghost use Rattle.replica_opening.specs.Readers.{AreReaders};
ghost use Rattle.replica_opening.specs.Opened.{IsSettledOn};
ghost use Rattle.replica_node.specs.Jobs.{stopped_job, IsStartingFault};
ghost use Rattle.replica_node.specs.declared.job.PointJob.{PointJob};
ghost use Rattle.replica_node.specs.declared.parts.ReplicaParts.{ReplicaParts};
ghost use Rattle.replica_node.specs.Merges.{copy_at, copies_with, copies_without};
ghost use Rattle.replica_node.specs.Replica.{IsWholeReplica};
ghost use Rattle.replica_node.specs.Sources.{CopiesFrom};
ghost use Rattle.replica_node.specs.Running.{running_job, with_job, without_job};

/// A directory that restarted from an image, as after a crash, shows in each image what it shows.
pub fn restarted_settled()
    ensures { (image : Image) → IsSettledOn (restarted image) }
{}

/// Where the files of infos are of documents, the readers of their segments search just these.
pub fn readers_search()
    ensures { (reads : Name → Content) (infos : Infos) (segs : List Shown) (docs : List Doc)
        → AreReaders reads infos.segs segs → StandsFor reads infos docs → AreSegmentsOf docs segs }
{}

/// A file of infos is none of a commit and none that is being copied.
pub fn files_last()
    ensures { (infos : Infos) (names : List Name) → AreFilesOf infos names
        → (q : Name) → Contains (flat_map files_of_segment infos.segs) q → IsLasting q }
{}

/// Where what is held reads as at a source, and the files that are wanted have their metadata there, no job is refused for a
/// clash.
pub fn no_clash()
    ensures { (source reads : Name → Content) (holdings : Holdings)
        (files : List (Name × FileMetaData)) (fault : JobFault)
        → ((q : Name) → IsLasting q → 0 < count_of holdings q → reads q ≡ source q)
        → All (λ f. IsLasting f.0) files → All (λ f. HasMeta source f.0 f.1) files
        → IsStartingFault reads holdings files fault → fault ≡ JobFault.Memory }
{}

/// Where a job lacks nothing and what it has reads as at a source, its point is of the documents that the source's is of.
pub fn sourced_stands()
    ensures { (source reads : Name → Content) (j : Job) (infos : Infos) (docs : List Doc)
        → CopiesFrom source reads j → j.missing ≡ [] → AreFilesOf infos (meta_names j.want.files)
        → StandsFor source infos docs → StandsFor (reads_under j.parts reads) infos docs }
{}

/// Where the job of a newer point has the number, it is the one that the calls by number are about.
pub fn point_runs<D>()
    ensures { (number : ℕ) (p : ReplicaParts D) (j : PointJob) → p.job ≡ Some j → j.stopped ≡ false
        → j.copy.number ≡ number → (running_job number p ≡ Some j.copy)
        × ((k : Job) → with_job number k p ≡ record p { job = Some (record j { copy = k }) })
        × (without_job number p ≡ record p { job = Some (stopped_job j) }) }
{}

/// Where a copy of a merged segment has the number, it is the one that the calls by number are about.
pub fn copy_runs<D>()
    ensures { (cells : D → Cells) (number : ℕ) (p : ReplicaParts D) (c : Job) → IsWholeReplica cells p
        → copy_at number p.copies.running ≡ Some c
        → (running_job number p ≡ Some c)
        × ((k : Job) → with_job number k p ≡ record p {
          copies = record p.copies {
            running = copies_with number k p.copies.running;
          };
        })
        × (without_job number p ≡ record p {
          copies = record p.copies {
            running = copies_without number p.copies.running;
          };
        }) }
{}
