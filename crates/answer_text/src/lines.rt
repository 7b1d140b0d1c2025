//! The lines of a text, taken one by one.

ghost use Rattle.std.specs.Prelude.{◌≡◌, ◌==◌, ◌∷◌, ◌++◌, ◌-◌, ◌≤◌, false, position, length};
ghost use Rattle.std.specs.Prelude.{MatchOption};
ghost use Rattle.blob_source.specs.Lines.{has_line_feed};

/// What is left of a text.
#[derive(Drop)]
pub struct Lines<'a> {
    /// The bytes of the whole text.
    pub total: usize,
    pub rest: &'a [u8],
}

fn find_feed(text: &[u8]) -> Option<usize>
    ensures { result ≡ position (λ byte. byte == 10) text.now }
{
    text.iter().position(|byte| *byte == b'\n')
}

// The line in front of the first line feed, and what stands behind it.
fn cut(text: &[u8]) -> Option<(&[u8], &[u8])>
    ensures { MatchOption result (has_line_feed text.now ≡ false)
        (λ v. (has_line_feed v.0.now ≡ false) × (text.now ≡ v.0.now ++ 10 ∷ v.1.now)) }
{
    let Some(at) = find_feed(text) else {
        return None;
    };
    let (line, _) = text.split_at(at);
    let (_, rest) = text.split_at(at + 1);
    Some((line, rest))
}

impl<'a> Lines<'a> {
    /// The lines of a whole text.
    pub fn new(text: &'a [u8]) -> Lines<'a>
        ensures total { result.total ≡ length text.now }
        ensures rest { result.rest.now ≡ text.now }
    {
        Lines {
            total: text.len(),
            rest: text,
        }
    }

    /// The place of the next line.
    pub fn at(&self) -> usize
        requires { length self.now.rest.now ≤ self.now.total }
        ensures { result ≡ self.now.total - length self.now.rest.now }
    {
        self.total - self.rest.len()
    }

    /// Takes the next line without its line feed, where it has one.
    pub fn next(&mut self) -> Option<&'a [u8]>
        ensures { MatchOption result
            ((has_line_feed self.old.rest.now ≡ false) × (self.new.rest.now ≡ self.old.rest.now)
            × (self.new.total ≡ self.old.total))
            (λ line. (has_line_feed line.now ≡ false)
            × (self.old.rest.now ≡ line.now ++ 10 ∷ self.new.rest.now)
            × (self.new.total ≡ self.old.total)) }
    {
        match cut(self.rest) {
            Some((line, rest)) => {
                self.rest = rest;
                Some(line)
            }
            None => None,
        }
    }
}
