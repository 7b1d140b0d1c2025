//! What the lists behind the late drops read off the parts.
ghost use Rattle.store_laws.specs.Compacting.{CompactionsStand};
ghost use Rattle.store_laws.specs.Granting.{GrantsStand};
ghost use Rattle.store_laws.specs.LateJobs.{PageJobsStand};
ghost use Rattle.store_laws.specs.LateLaws.{CoursesGo, LateBegins, LateKeeps, RemovalsStand};
ghost use Rattle.store_laws.specs.LateLists.{HeadsAreGranted, JobsMayStart};
ghost use Rattle.store_laws.specs.LateLists.{PageJobsAreTold, VictimsAreChosen};

/// A job may start where paging is on and none is in flight, as the page files say.
pub fn jobs_may_start()
    ensures { JobsMayStart }
{}

/// The victims in the order of use are the pieces to page.
pub fn victims_are_chosen()
    ensures { VictimsAreChosen }
{}

/// The page job that is owed is the one with the victims, where a job may start and somebody waits.
pub fn page_jobs_are_told()
    ensures { PageJobsAreTold }
{}

/// The head of the queue that fits is the next that is granted.
pub fn heads_are_granted()
    ensures { HeadsAreGranted }
{}

/// The parts stand once a page job has started with the victims, which are in the order of use no
/// more.
pub fn page_jobs_stand()
    ensures { PageJobsStand }
{}

/// Behind the late drops the history is at rest, page numbers were taken in turn and the job names
/// pieces that may fly; each late answer leaves it so.
pub fn courses_go()
    ensures { CoursesGo }
{}

/// The parts stand behind the removal of the least page that is due, and answers for all that were
/// due are the removals owed.
pub fn removals_stand()
    ensures { RemovalsStand }
{}

/// Behind the late drops of a line the parts stand as the late lists ask, and nobody is marked.
pub fn late_begins()
    ensures { LateBegins }
{}

/// Behind a sweep the parts keep what reaching asks, and what is held is what is reached.
pub fn late_keeps()
    ensures { LateKeeps }
{}

/// The parts stand once the head of the queue that fits is granted, and is told so; the grants owed
/// are those of the heads that fit, one after the other.
pub fn grants_stand()
    ensures { GrantsStand }
{}

/// The compaction that is owed is the one that the page files call for, where a job may start, and
/// the parts stand behind it.
pub fn compactions_stand()
    ensures { CompactionsStand }
{}
