ghost use Rattle.std.specs.Prelude.{[], ◌∷◌};
ghost use Rattle.blob_model.specs.Worked.{AllLegal, AllIllegal};
ghost use Rattle.blob_model.specs.RowsReads.{short_reads, slices, cuts, one_piece_stays};
ghost use Rattle.blob_model.specs.RowsReads.{viewed_twice};
ghost use Rattle.blob_model.specs.WrongReads.{wrong_reads};
ghost use Rattle.blob_model.specs.RowsTransit.{unfinished_source, builder_dies, nobody_holds};
ghost use Rattle.blob_model.specs.RowsTransit.{out_of_order};
ghost use Rattle.blob_model.specs.WrongTransit.{wrong_transit};
ghost use Rattle.blob_model.specs.RowsQuota.{sent_again, head_first};
ghost use Rattle.blob_model.specs.WrongQuota.{wrong_quota};
ghost use Rattle.blob_model.specs.RowsPaging.{page_job, page_unread, page_failed, page_left};
ghost use Rattle.blob_model.specs.RowsPaging.{job_lost};
ghost use Rattle.blob_model.specs.WrongPaging.{wrong_paging};
ghost use Rattle.blob_model.specs.RowsStored.{past_memory, stored_left, disk_full, memory_full};
ghost use Rattle.blob_model.specs.RowsStored.{store_failed, long_page, long_page_failed};
ghost use Rattle.blob_model.specs.WrongStored.{wrong_stored};
ghost use Rattle.blob_model.specs.RowsSources.{file_changes, blob_urls, data_handle};
ghost use Rattle.blob_model.specs.WrongSources.{wrong_sources};
ghost use Rattle.blob_model.specs.RowsUpload.{upload};
ghost use Rattle.blob_model.specs.WrongUpload.{wrong_upload};
ghost use Rattle.blob_model.specs.RowsBroken.{before_a_fault, broken_at_line};
ghost use Rattle.blob_model.specs.WrongBroken.{wrong_broken};
ghost use Rattle.blob_model.specs.RowsChains.{chain_dropped, chain_done};
ghost use Rattle.blob_model.specs.WrongChains.{wrong_chains};
ghost use Rattle.blob_model.specs.RowsVersions.{waiting_lost, waiting_failed, waiting_on};
ghost use Rattle.blob_model.specs.WrongVersions.{wrong_versions};
ghost use Rattle.blob_model.specs.RowsCompaction.{moved, move_unread, move_failed, no_room};
ghost use Rattle.blob_model.specs.RowsCompaction.{nothing_left};
ghost use Rattle.blob_model.specs.WrongCompaction.{wrong_compaction};

/// Sessions in which blobs are built, sliced and read: their transcripts are legal.
pub fn reads_are_legal()
    ensures { AllLegal (short_reads ∷ slices ∷ cuts ∷ one_piece_stays ∷ viewed_twice ∷ []) }
{}

/// And wrong transcripts of them are not.
pub fn reads_wrong_are_refused()
    ensures { AllIllegal wrong_reads }
{}

/// Sessions in which bytes come in segments: their transcripts are legal.
pub fn transit_are_legal()
    ensures { AllLegal (unfinished_source ∷ builder_dies ∷ nobody_holds ∷ out_of_order ∷ []) }
{}

/// And wrong transcripts of them are not.
pub fn transit_wrong_are_refused()
    ensures { AllIllegal wrong_transit }
{}

/// Sessions in which blobs wait for room in memory: their transcripts are legal.
pub fn quota_are_legal()
    ensures { AllLegal (sent_again ∷ head_first ∷ []) }
{}

/// And wrong transcripts of them are not.
pub fn quota_wrong_are_refused()
    ensures { AllIllegal wrong_quota }
{}

/// Sessions in which pieces go to page files: their transcripts are legal.
pub fn paging_are_legal()
    ensures { AllLegal (page_job ∷ page_unread ∷ page_failed ∷ page_left ∷ job_lost ∷ []) }
{}

/// And wrong transcripts of them are not.
pub fn paging_wrong_are_refused()
    ensures { AllIllegal wrong_paging }
{}

/// Sessions in which blobs go to page files as they come: their transcripts are legal.
pub fn stored_are_legal()
    ensures { AllLegal (past_memory ∷ stored_left ∷ disk_full ∷ memory_full ∷ store_failed
        ∷ long_page ∷ long_page_failed ∷ []) }
{}

/// And wrong transcripts of them are not.
pub fn stored_wrong_are_refused()
    ensures { AllIllegal wrong_stored }
{}

/// Sessions in which files, URLs and data handles: their transcripts are legal.
pub fn sources_are_legal()
    ensures { AllLegal (file_changes ∷ blob_urls ∷ data_handle ∷ []) }
{}

/// And wrong transcripts of them are not.
pub fn sources_wrong_are_refused()
    ensures { AllIllegal wrong_sources }
{}

/// Sessions in which an upload, an image and a worker: their transcripts are legal.
pub fn upload_are_legal()
    ensures { AllLegal (upload ∷ []) }
{}

/// And wrong transcripts of them are not.
pub fn upload_wrong_are_refused()
    ensures { AllIllegal wrong_upload }
{}

/// Sessions in which lines that are refused or break their blob: their transcripts are legal.
pub fn broken_are_legal()
    ensures { AllLegal (before_a_fault ∷ broken_at_line ∷ []) }
{}

/// And wrong transcripts of them are not.
pub fn broken_wrong_are_refused()
    ensures { AllIllegal wrong_broken }
{}

/// Sessions in which blobs that are built from one another: their transcripts are legal.
pub fn chains_are_legal()
    ensures { AllLegal (chain_dropped ∷ chain_done ∷ []) }
{}

/// And wrong transcripts of them are not.
pub fn chains_wrong_are_refused()
    ensures { AllIllegal wrong_chains }
{}

/// Sessions in which what waits when paging is turned off: their transcripts are legal.
pub fn versions_are_legal()
    ensures { AllLegal (waiting_lost ∷ waiting_failed ∷ waiting_on ∷ []) }
{}

/// And wrong transcripts of them are not.
pub fn versions_wrong_are_refused()
    ensures { AllIllegal wrong_versions }
{}

/// Sessions in which thin page files: their transcripts are legal.
pub fn compaction_are_legal()
    ensures { AllLegal (moved ∷ move_unread ∷ move_failed ∷ no_room ∷ nothing_left ∷ []) }
{}

/// And wrong transcripts of them are not.
pub fn compaction_wrong_are_refused()
    ensures { AllIllegal wrong_compaction }
{}
