ghost use Rattle.std.specs.Prelude.{◌≡◌, true, false, IfOk, MatchResult};

use crate::fault::{NameFault, NoMemory};
use crate::list::Octets;
use std::alloc::Global;
use std::marker::{Model, PhantomData};

/// Which bytes are a text of some kind.
pub trait TextRule {
    ghost use Rattle.std.specs.Prelude.{ℕ, Bool, List};

    // Whether bytes are such a text.
    ghost is_text: { List ℕ → Bool };

    /// Whether bytes are such a text.
    fn is_text(bytes: &[u8]) -> bool
        ensures { result ≡ is_text bytes.now };
}

/// Bytes that meet a rule. Contracts see the bytes.
#[derive(Debug, Drop)]
pub struct Text<R: TextRule> {
    bytes: Octets,
    rule: PhantomData<R>,
}

impl<R: TextRule> Model for Text<R> {
    ghost use Rattle.std.specs.Prelude.{◌≡◌, ℕ, true, List};

    ghost Value = { List ℕ };

    ghost view = { λ text. text.bytes };

    ghost invariant = { λ text. R.is_text text.bytes ≡ true };
}

impl<R: TextRule> Text<R> {
    /// The text of these bytes, where they meet the rule.
    pub fn new(bytes: Octets) -> Result<Self, NameFault>
        ensures { MatchResult result
            (λ text. (text ≡ bytes) × (R.is_text bytes ≡ true))
            (λ _. R.is_text bytes ≡ false) }
    {
        if R::is_text(bytes.as_slice()) {
            Ok(Text {
                bytes,
                rule: PhantomData,
            })
        } else {
            Err(NameFault::Form)
        }
    }

    /// The same text once more.
    pub fn copy(&self, alloc: Global) -> Result<Self, NoMemory>
        ensures { IfOk result (λ text. text ≡ self.now) }
    {
        let bytes = Octets::from_slice(alloc, self.bytes.as_slice())?;
        Ok(Text {
            bytes,
            rule: PhantomData,
        })
    }

    pub fn as_slice(&self) -> &[u8]
        ensures bytes { result.now ≡ self.now }
        ensures form { R.is_text self.now ≡ true }
    {
        self.bytes.as_slice()
    }
}
