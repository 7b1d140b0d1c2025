//! Disks whose state is written down after each call.
ghost use Rattle.std.specs.Prelude.{◌≡◌, IfSome};

use blob_words::PageNo;
use page_disk::{Change, MemoryDisk, PageDisk};
use page_volumes::Volumes;
use std::fmt::Write;
use std::test::Fail;

/// A disk of which a test tells more than its answers.
pub trait Watched: PageDisk {
    /// What was done, where that is told.
    fn told(&self) -> &[Change]
        ensures { IfSome (Self.changes self.now) (λ changes. result.now ≡ changes) };

    /// Writes down where the file of a page is, and how the volumes stand.
    fn look(&self, page: u32, text: &mut String) -> Result<(), Fail>;
}

impl Watched for MemoryDisk {
    fn told(&self) -> &[Change] {
        self.changes()
    }

    fn look(&self, _page: u32, _text: &mut String) -> Result<(), Fail> {
        Ok(())
    }
}

impl Watched for Volumes {
    fn told(&self) -> &[Change] {
        self.changes()
    }

    fn look(&self, page: u32, text: &mut String) -> Result<(), Fail> {
        if let Some(place) = self.volume_of(PageNo(page)) {
            write!(text, " on {place}")?;
        }
        text.push_str("; held")?;
        for place in 0..16 {
            if self.held(place) {
                write!(text, " {place}")?;
            }
        }
        text.push_str("; retired")?;
        for place in 0..16 {
            if self.retired(place) {
                write!(text, " {place}")?;
            }
        }
        Ok(write!(text, "; count {}", self.faults())?)
    }
}
