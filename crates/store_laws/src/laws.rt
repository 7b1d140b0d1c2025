ghost use Rattle.store_laws.specs.AgreeLaws.{EntriesAgree, ReachesFollows};
ghost use Rattle.store_laws.specs.BuildLaws.{BuildsAdd, ContentsGrow, GrownStands, ListedAreThere};
ghost use Rattle.store_laws.specs.PageLaws.{ArePagesInTurn, DiskIsCharged};
ghost use Rattle.store_laws.specs.PartLaws.{RecipesStand};
ghost use Rattle.store_laws.specs.ReachLaws.{ChargesAreTold, HeldIsReached, SettledRests};
ghost use Rattle.store_laws.specs.ReachLaws.{SlotsAreReached};
ghost use Rattle.store_laws.specs.CellLaws.{DenotedLaws};
ghost use Rattle.store_laws.specs.CountLaws.{TellsHowMany};
ghost use Rattle.store_laws.specs.DropLaws.{DropsStand};
ghost use Rattle.store_laws.specs.EntryLaws.{NewEntries, UnbuiltUnended};
ghost use Rattle.store_laws.specs.GroupLaws.{GroupLegal, LateListsKeepLives, OwnLives};
ghost use Rattle.store_laws.specs.LetGo.{ItemsLetGo, OrderLetGo, PagesLetGo, QueueLetGo};
ghost use Rattle.store_laws.specs.Releasing.{HandlesLetGo};
ghost use Rattle.store_laws.specs.LineLaws.{LinesStand, NewStands, NoneIsMarked};
ghost use Rattle.store_laws.specs.SweepLaws.{SweepLeavesLive};
ghost use Rattle.store_laws.specs.Passing.{EntriesPass, PassStands};
ghost use Rattle.store_laws.specs.Swept.{SweptStands};
ghost use Rattle.store_laws.specs.TellLaws.{TellsAllCells, TellsCells, ValuesStay};

/// A line's own answers and the seven lists of settling, each after the one before, make a legal
/// group.
pub fn group_legal()
    ensures { GroupLegal }
{}

/// The lists behind the second drops change no life.
pub fn late_lists_keep_lives()
    ensures { LateListsKeepLives }
{}

/// Whatever lives after a line's own answers lived before it, or the line built it.
pub fn own_lives()
    ensures { OwnLives }
{}

/// The cells of views that are joined are those of the one and then of the other; views with a
/// part of others' cells stand for that part; and where slots say the same, views do.
pub fn views_denote_cells()
    ensures { DenotedLaws }
{}

/// The pieces held, by items or among gathered bytes, are those reached.
pub fn held_is_reached()
    ensures { HeldIsReached }
{}

/// The bytes of the items in memory and those that are gathered are the bytes of the reached pieces
/// in memory, and the reserved ones those of the reached pieces that are reserved.
pub fn charges_are_told()
    ensures { ChargesAreTold }
{}

/// Behind each group of a legal transcript no ending by a broken source is owed, and each source of
/// an unfinished live blob lives.
pub fn settled_rests()
    ensures { SettledRests }
{}

/// The data handles that items hold are those reached.
pub fn slots_are_reached()
    ensures { SlotsAreReached }
{}

/// In a legal transcript page numbers are taken one after the other, by page files and failed
/// writes.
pub fn pages_in_turn()
    ensures { ArePagesInTurn }
{}

/// The bytes charged for page files are those that the history says, and as many page files hold a
/// reached piece.
pub fn disk_is_charged()
    ensures { DiskIsCharged }
{}

/// While whatever lives stands, and whatever is unfinished, entries that are held as their blobs
/// are agree with the history, as the laws of the registry ask.
pub fn entries_agree()
    ensures { EntriesAgree }
{}

/// When the live blobs stand and no others, what is held is what is reached, and memory, page files
/// and data handles are as the tally and the history say.
pub fn reaches_follows()
    ensures { ReachesFollows }
{}

/// Behind each group of a legal transcript no unfinished entry is marked to break.
pub fn none_is_marked()
    ensures { NoneIsMarked }
{}

/// The parts stand for the history with a line that is refused, and with one that tells how a blob
/// stands, where a renderer comes, or where a handle goes.
pub fn lines_stand()
    ensures { LinesStand }
{}

/// A store that has heard nothing stands for what comes after the line of the limits.
pub fn new_stands()
    ensures { NewStands }
{}

/// What `tally` answers is how much there is of what the parts have, and it changes nothing.
pub fn tells_how_many()
    ensures { TellsHowMany }
{}

/// A sweep leaves the entries of the live blobs, and behind the drops what is left stands for them.
pub fn sweep_leaves_live()
    ensures { SweepLeavesLive }
{}

/// Page files and the job in flight stand for the items that are left, once each item that goes is
/// let go there.
pub fn pages_let_go()
    ensures { PagesLetGo }
{}

/// The order of use, without the pieces of the items that go, is that of the pieces that are left.
pub fn order_let_go()
    ensures { OrderLetGo }
{}

/// When views go and no item stands without one, items went, and those with a view left, or with a
/// piece on its way, are where they were.
pub fn items_let_go()
    ensures { ItemsLetGo }
{}

/// Where items go, no two of them of one data handle, their objects can be dropped, and the data
/// handles stand for the items that are left.
pub fn handles_let_go()
    ensures { HandlesLetGo }
{}

/// The queue, without the blobs that are dropped, is that of those that wait still.
pub fn queue_let_go()
    ensures { QueueLetGo }
{}

/// What a sweep leaves of entries, rows, items, queue, page files and order of use stands behind
/// the drops, for the live blobs.
pub fn swept_stands()
    ensures { SweptStands }
{}

/// The names that a sweep drops are the drops owed, and behind them what is left of the parts and
/// of the data handles stands, with the live blobs and no others.
pub fn drops_stand()
    ensures { DropsStand }
{}

/// Entries, items and charges stand for the history with a new blob, where its entry, its row and
/// its items come.
pub fn contents_grow()
    ensures { ContentsGrow }
{}

/// In a legal transcript whatever page files list and the job in flight names is a piece of a blob.
pub fn listed_are_there()
    ensures { ListedAreThere }
{}

/// In a legal transcript an accepted line that builds adds its blob, and changes nothing else of
/// what the contents stand for.
pub fn builds_add()
    ensures { BuildsAdd }
{}

/// The parts stand for the history with a new blob, where the tables beside them do.
pub fn grown_stands()
    ensures { GrownStands }
{}

/// A recipe of parts stands for their cells, where its pieces are found and its slots hold the
/// ranges.
pub fn recipes_stand()
    ensures { RecipesStand }
{}

/// In a legal transcript a blob that was not built has not ended.
pub fn unbuilt_unended()
    ensures { UnbuiltUnended }
{}

/// The entry and the row of a new blob stand for it: broken at its line, with all its own bytes at
/// hand, waiting for room, or with segments that go to page files.
pub fn new_entries()
    ensures { NewEntries }
{}

/// A byte that is told of a place in an item which is in no page file is the byte that the history
/// says of its cell.
pub fn tells_cells()
    ensures { TellsCells }
{}

/// What a pass makes of the entries stands behind the endings, with the rows of those that ended
/// settled.
pub fn entries_pass()
    ensures { EntriesPass }
{}

/// The contents stand behind the endings, with the queue without those that ended and the order of
/// use with the pieces of those that got done.
pub fn pass_stands()
    ensures { PassStands }
{}

/// So does one that is told of a place in any item, where each page file has the bytes of its
/// pieces, one after the other, and each of them whole.
pub fn tells_all_cells()
    ensures { TellsAllCells }
{}

/// What an own byte of a blob was sent as stays so, whatever is heard or said.
pub fn values_stay()
    ensures { ValuesStay }
{}
