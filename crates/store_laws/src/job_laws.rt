//! Lines that end the job in flight.
ghost use Rattle.store_laws.specs.JobLaws.{JobLinesStand};

/// Why a line can't end a job, and what the disk may reply to it, is read off the page files, and
/// the parts stand for the history in which it is lost, has nothing left, or fails.
pub fn job_lines_stand()
    ensures { JobLinesStand }
{}
