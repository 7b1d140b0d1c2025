//! What a judge says of a transcript.
use answer_text::{Group, read_group};
use blob_words::Octets64;
use std::alloc::Global;
use transcript_audit::auditor::Auditor;
use transcript_audit::verdict::Verdict;

/// Where the judge of a transcript stands: it, the groups that it took, and what it said last.
#[derive(Drop)]
pub struct Judging {
    auditor: Auditor,
    count: u64,
    word: &'static str,
}

// The verdict in words.
fn word_of(verdict: Verdict) -> &'static str {
    match verdict {
        Verdict::Legal => "legal",
        Verdict::Illegal => "illegal",
        Verdict::Large => "large",
    }
}

// The group in front of the text.
fn front(alloc: Global, text: &[u8]) -> anyhow::Result<Group> {
    let (group, _) = read_group(alloc, text)?;
    Ok(group)
}

// How long the group in front of the text is, or 0 where there is none.
fn front_len(alloc: Global, text: &[u8]) -> usize {
    match read_group(alloc, text) {
        Ok((_, len)) => len,
        Err(_) => 0,
    }
}

impl Judging {
    /// A judge over data handles of these sizes.
    pub fn new(alloc: Global, sizes: &[u64]) -> anyhow::Result<Judging> {
        let sizes = Octets64::from_slice(alloc, sizes)?;
        let auditor = Auditor::new(alloc, sizes)?;
        Ok(Judging {
            auditor,
            count: 0,
            word: "legal",
        })
    }

    // Judges the group in front of the text.
    fn take(&mut self, alloc: Global, text: &[u8]) -> anyhow::Result<()> {
        let group = front(alloc, text)?;
        let verdict = self.auditor.next(group)?;
        self.word = word_of(verdict);
        self.count = self.count.wrapping_add(1);
        Ok(())
    }

    // Whether the judge says the same of the group in front of the text.
    fn says_again(&mut self, alloc: Global, text: &[u8]) -> anyhow::Result<bool> {
        let group = front(alloc, text)?;
        let verdict = self.auditor.next(group)?;
        Ok(word_of(verdict) == self.word)
    }

    /// Judges the groups of the text, one after the other, up to the first that isn't legal. The
    /// group of the number `place` is `other` instead.
    pub fn judge(
        &mut self,
        alloc: Global,
        text: &[u8],
        place: u64,
        other: &[u8],
    ) -> anyhow::Result<()> {
        let mut rest = text;
        for number in 1..u64::MAX {
            if rest.is_empty() || self.word != "legal" {
                return Ok(());
            }
            let len = front_len(alloc, rest);
            if len == 0 {
                self.word = "form";
                self.count = number;
                return Ok(());
            }
            let (group, behind) = rest.split_at(len.min(rest.len()));
            self.take(alloc, if number == place { other } else { group })?;
            rest = behind;
        }
        Ok(())
    }

    /// `legal N` of a transcript whose N groups are legal; `illegal G` or `large G` where the judge
    /// said that first of group G, and says it again of `group`; `form G` where no group stands
    /// there.
    pub fn answer(&mut self, alloc: Global, group: &[u8]) -> anyhow::Result<String> {
        let (word, count) = (self.word, self.count);
        if word == "illegal" || word == "large" {
            if !self.says_again(alloc, group)? {
                return Ok(format!(in alloc; "{word} {count}, and then another verdict")?);
            }
        }
        Ok(format!(in alloc; "{word} {count}")?)
    }
}

/// What is said of a transcript over data handles of these sizes, where the group of the number
/// `place` is `other`.
pub fn judged(
    alloc: Global,
    sizes: &[u64],
    transcript: &[u8],
    place: u64,
    other: &[u8],
) -> anyhow::Result<String> {
    let mut judging = Judging::new(alloc, sizes)?;
    judging.judge(alloc, transcript, place, other)?;
    judging.answer(alloc, transcript)
}
