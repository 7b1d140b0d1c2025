ghost use Rattle.blob_model.specs.Laws.{ChangeLaws};
ghost use Rattle.blob_model.specs.BuildLaws.{CellsAreSizes, BuildsAreOrdered, NamesDiffer};
ghost use Rattle.blob_model.specs.BuildLaws.{LiveIsLeast, RootedLive, LiveAreNamed, LiveIsClosed};
ghost use Rattle.blob_model.specs.BuildLaws.{PiecesCover, PiecesAreNumbered, SearchesAreAny};
ghost use Rattle.blob_model.specs.BuildLaws.{UnspawnedAreNotDead, RenderersAreFew, PiecesAreFew};
ghost use Rattle.blob_model.specs.TextLaws.{GroupsHaveText};
ghost use Rattle.blob_model.specs.TotalLaws.{TotalsHold, NumbersAreLow};
ghost use Rattle.blob_model.specs.PageLaws.{PagesRise, AskedWereWritten, PlacesMove, ChangesAdd};
ghost use Rattle.blob_model.specs.PageLaws.{WrittenHaveBytes};
ghost use Rattle.blob_model.specs.SettledLaws.{SettledAfterEach, RefusedSettlesNothing, MemoryFits};
ghost use Rattle.blob_model.specs.SettledLaws.{DiskFits};
ghost use Rattle.blob_model.specs.LegalLaws.{FrontsAreLegal, MoreIsLegal, OneTranscript};
ghost use Rattle.blob_model.specs.LegalLaws.{ReachedAreGranted, ThinStaysForRoom};
ghost use Rattle.blob_model.specs.LegalLaws.{DiskIsAtMostTwice};

/// After which lines and answers alone each notion changes.
pub fn notions_change()
    ensures { ChangeLaws }
{}

/// Whatever a legal transcript begins with is legal.
pub fn fronts_are_legal()
    ensures { FrontsAreLegal }
{}

/// One more legal group makes a longer legal transcript.
pub fn more_is_legal()
    ensures { MoreIsLegal }
{}

/// Where the outside tells all, events have one legal transcript without a fault.
pub fn transcript_is_one()
    ensures { OneTranscript }
{}

/// Each reached piece is of a blob that was granted.
pub fn reached_are_granted()
    ensures { ReachedAreGranted }
{}

/// A thin page file stays only where the disk has no room for its reached pieces once more.
pub fn thin_stays_for_room()
    ensures { ThinStaysForRoom }
{}

/// Without a job in flight and a thin page file, the disk is charged at most twice the reached
/// pieces in page files, and those that are reserved.
pub fn disk_is_at_most_twice()
    ensures { DiskIsAtMostTwice }
{}

/// In a legal transcript each blob has as many cells as its size.
pub fn cells_are_sizes()
    ensures { CellsAreSizes }
{}

/// Whatever has the roots and is closed under what unfinished blobs need has every live blob.
pub fn live_is_least()
    ensures { LiveIsLeast }
{}

/// Each rooted blob lives.
pub fn rooted_live()
    ensures { RootedLive }
{}

/// The renderer after 1,024 is refused.
pub fn renderers_are_few()
    ensures { RenderersAreFew }
{}

/// After each group of a legal transcript nothing is owed.
pub fn settled_after_each()
    ensures { SettledAfterEach }
{}

/// A refused line has one answer, settles nothing and keeps the tally of the group before it.
pub fn refused_settles_nothing()
    ensures { RefusedSettlesNothing }
{}

/// After each group of a legal transcript the bytes in memory are within the limit.
pub fn memory_fits()
    ensures { MemoryFits }
{}

/// After each group of a legal transcript the bytes charged to the disk are within the limit.
pub fn disk_fits()
    ensures { DiskFits }
{}

/// In a legal transcript whatever an unfinished live blob takes bytes from lives.
pub fn live_is_closed()
    ensures { LiveIsClosed }
{}

/// The pieces of a blob stand end to end and cover each own byte once.
pub fn pieces_cover()
    ensures { PiecesCover }
{}

/// A build with which there would be more than 65,536 pieces is refused.
pub fn pieces_are_few()
    ensures { PiecesAreFew }
{}

/// In a legal transcript the names of blobs differ, and a blob takes bytes from older ones.
pub fn builds_are_ordered()
    ensures { BuildsAreOrdered }
{}

/// In a legal transcript no two blobs have one name.
pub fn names_differ()
    ensures { NamesDiffer }
{}

/// Where names differ the live blobs are those of live names, in order of build.
pub fn live_are_named()
    ensures { LiveAreNamed }
{}

/// Pieces are numbered 0, 1, 2 and so on.
pub fn pieces_are_numbered()
    ensures { PiecesAreNumbered }
{}

/// The two searches that end at the first find are `list_any`.
pub fn searches_are_any()
    ensures { SearchesAreAny }
{}

/// In a legal transcript that goes on, who was never spawned is not dead.
pub fn unspawned_are_not_dead()
    ensures { UnspawnedAreNotDead }
{}

/// In a legal transcript the numbers of page files rise, and lie below the next one.
pub fn pages_rise()
    ensures { PagesRise }
{}

/// In a legal transcript each page file asked for was written, and is asked for once.
pub fn asked_were_written()
    ensures { AskedWereWritten }
{}

/// A piece is in the last page file that lists it: which answers move it, and where.
pub fn places_move()
    ensures { PlacesMove }
{}

/// An answer adds its change to those before it, whatever they are.
pub fn changes_add()
    ensures { ChangesAdd }
{}

/// In a legal transcript there are at most 1,024 renderers, 16,384 files, 65,536 blobs, 65,536
/// pieces and 4,194,304 views, and at once 16,384 URL entries and 4,096 readers.
pub fn totals_hold()
    ensures { TotalsHold }
{}

/// In a legal transcript each byte of a piece that a page file lists has a value.
pub fn written_have_bytes()
    ensures { WrittenHaveBytes }
{}

/// In a legal transcript at most 131,072 jobs start and at most 196,608 page numbers are taken.
pub fn numbers_are_low()
    ensures { NumbersAreLow }
{}

/// Each group of a legal transcript has a text, where its events have a spelling and what is given
/// are bytes.
pub fn groups_have_text()
    ensures { GroupsHaveText }
{}
