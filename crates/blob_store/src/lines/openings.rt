//! How a reader is opened.
ghost use Rattle.std.specs.Prelude.{◌≡◌, ◌^◌, ◌<◌, None, Some, false, true, map, IfErr, IfOk, IsSome, OnErr, OnOk};
ghost use Rattle.blob_entries.specs.Book.{entry_of};
ghost use Rattle.renderer_table.specs.Counted.{origin_at};
ghost use Rattle.store_laws.specs.OpeningLaws.{opening_refusal, passes_end};
ghost use Rattle.blob_store.specs.Openings.{course_over};
ghost use Rattle.blob_store.specs.Roots.{roots_at};
ghost use Rattle.blob_store.specs.Seen.{reader_of};

use crate::parts::Parts;
use crate::readers::OpenReader;
use answer_text::{Answer, Refusal};
use blob_entries::Entry;
use blob_entries::status::is_broken;
use blob_words::bounds::MOST_READERS;
use blob_words::{BlobName, Counted, NoMemory, Octets, ReaderId, RendererId};
use range_reader::{Range, Reader};

// The course over a range of what stands there; that over a broken blob is empty.
fn course_over(entry: &Entry, off: u64, len: Option<u64>) -> Result<Reader, Range>
    ensures ok { IfOk result (λ course. (passes_end entry.now off len ≡ false)
        × (course ≡ course_over entry.now off len)) }
    ensures range { IfErr result (λ range. (passes_end entry.now off len ≡ true)
        × (range.size ≡ entry.now.size)) }
{
    if is_broken(entry.status) {
        return Reader::start(off, off, None);
    }
    Reader::start(entry.size, off, len)
}

impl Parts {
    ghost use Rattle.blob_store.specs.Openings.{Opening};
    ghost use Rattle.blob_store.specs.Whole.{with_line, IsWhole};

    // What stands under the name of a blob that somebody holds.
    fn entry_rooted(&self, name: BlobName) -> &Entry
        requires { 0 < roots_at self.now.registry name }
        ensures { Some result.now ≡ entry_of self.now.registry name }
    {
        let number = self.registry.number_of(name).unwrap();
        self.registry.entry_under(number).unwrap()
    }

    // The course of a reader, or why it can't be opened.
    fn course(
        &self,
        reader: ReaderId,
        entry: &Entry,
        off: u64,
        len: Option<u64>,
    ) -> Result<Reader, Refusal>
        ensures ok { IfOk result (λ course.
            (opening_refusal reader entry.now off len (map reader_of self.now.readers) ≡ None)
            × (course ≡ course_over entry.now off len)) }
        ensures err { IfErr result (λ why.
            opening_refusal reader entry.now off len (map reader_of self.now.readers) ≡ Some why) }
    {
        if self.readers.find(reader).is_some() {
            return Err(Refusal::ReaderUsed(reader));
        }
        let course = match course_over(entry, off, len) {
            Ok(course) => course,
            Err(range) => return Err(Refusal::Range(range.size)),
        };
        if self.readers.count() >= MOST_READERS {
            return Err(Refusal::TooMany(Counted::Readers));
        }
        Ok(course)
    }

    // A renderer opens a reader on a blob that somebody holds.
    #[tactic(auto, unfolding(crate::specs::Whole::IsWhole))]
    pub(crate) fn open_range(
        &mut self,
        owner: RendererId,
        number: ReaderId,
        blob: BlobName,
        off: u64,
        len: Option<u64>,
    ) -> Result<Answer, NoMemory>
        requires whole { IsWhole self.old }
        requires few { self.old.lines < 2 ^ 63 }
        requires rooted { 0 < roots_at self.old.registry blob }
        requires alive { IsSome (origin_at owner.0 self.old.renderers) }
        ensures whole { OnOk result (IsWhole (with_line self.new)) }
        ensures opening { IfOk result (λ answer. Opening
            (record { owner = owner; number = number; blob = blob; off = off; len = len })
            answer self.old self.new) }
        ensures items { OnOk result (self.new.shares ≡ self.old.shares) }
        ensures err { OnErr result (self.new ≡ self.old) }
    {
        let entry = self.entry_rooted(blob);
        let course = match self.course(number, entry, off, len) {
            Ok(course) => course,
            Err(why) => return Ok(Answer::Refused(why)),
        };
        let size = entry.size;
        let Ok(kind) = Octets::from_slice(self.alloc, entry.kind.as_slice()) else {
            return Err(NoMemory);
        };
        self.readers.add(
            number,
            OpenReader {
                owner,
                blob,
                course,
            },
        )?;
        self.registry.hold(blob);
        Ok(Answer::Opened {
            q: number,
            size,
            kind,
        })
    }
}
