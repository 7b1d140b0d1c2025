//! The fields of a line or of a part, taken one by one.

ghost use Rattle.std.specs.Prelude.{◌≡◌, ◌∷◌, [], option_map, MatchOption, length};
ghost use Rattle.text_fields.specs.Kind.{IsFirstFault, IsRowFault};
ghost use Rattle.std.specs.Prelude.{◌≤◌};
ghost use Rattle.text_fields.specs.Reading.{split, split_rest, IsReading, TakesField};

use crate::field::Field;
use crate::line_fault::LineFault;
use crate::row::Row;
use blob_source::find_byte;
use std::alloc::Global;
use std::marker::Model;

/// What is left of a line or of a part. Contracts see its fields, which one separator parts.
#[derive(Drop)]
pub struct Fields<'a> {
    separator: u8,
    /// The bytes behind the separator after the last field that was taken; none at the end.
    rest: Option<&'a [u8]>,
    /// How many fields are left.
    left: usize,
}

impl<'a> Model for Fields<'a> {
    ghost use Rattle.std.specs.Prelude.{◌≡◌, ℕ, List, length, option_map};
    ghost use Rattle.text_fields.specs.Reading.{split_rest};

    ghost Value = { List (List ℕ) };

    ghost view = { λ fields. split_rest fields.separator
        (option_map (λ text. text.now) fields.rest) };

    ghost invariant = { λ fields. fields.left
        ≡ length (split_rest fields.separator (option_map (λ text. text.now) fields.rest)) };
}

// Goes from separator to separator.
fn count_fields(separator: u8, text: &[u8]) -> usize
    ensures { result ≡ length (split separator text.now) }
{
    let mut count = 1;
    let mut rest = text;
    while let Some(at) = find_byte(separator, rest) {
        let (_, after) = rest.split_at(at + 1);
        rest = after;
        count += 1;
    }
    count
}

// The text up to the first separator, and what stands behind it.
fn cut(separator: u8, text: &[u8]) -> (&[u8], Option<&[u8]>)
    ensures { split separator text.now ≡ result.0.now
        ∷ split_rest separator (option_map (λ rest. rest.now) result.1) }
{
    let Some(at) = find_byte(separator, text) else {
        return (text, None);
    };
    let (field, _) = text.split_at(at);
    let (_, rest) = text.split_at(at + 1);
    (field, Some(rest))
}

// The same of a text of so many fields: the last one is all of it.
fn cut_first(separator: u8, text: &[u8], count: usize) -> (&[u8], Option<&[u8]>)
    requires { count ≡ length (split separator text.now) }
    ensures { split separator text.now ≡ result.0.now
        ∷ split_rest separator (option_map (λ rest. rest.now) result.1) }
{
    if count == 1 {
        return (text, None);
    }
    cut(separator, text)
}

impl<'a> Fields<'a> {
    /// The fields of a whole line or part.
    pub fn new(separator: u8, text: &'a [u8]) -> Fields<'a>
        ensures { result ≡ split separator text.now }
    {
        Fields {
            separator,
            rest: Some(text),
            left: count_fields(separator, text),
        }
    }

    /// Takes the next field, where there is one.
    pub fn next(&mut self) -> Option<&'a [u8]>
        ensures { MatchOption result ((self.old ≡ []) × (self.new ≡ []))
            (λ text. self.old ≡ text.now ∷ self.new) }
    {
        match self.rest {
            Some(text) => {
                let (field, rest) = cut_first(self.separator, text, self.left);
                self.rest = rest;
                self.left -= 1;
                Some(field)
            }
            None => None,
        }
    }

    /// How many fields are left.
    pub fn count(&self) -> usize
        ensures { result ≡ length self.now }
    {
        self.left
    }

    /// Takes a value; there is a field.
    pub fn take<A: Field>(&mut self, alloc: Global) -> Result<A, LineFault>
        requires { 1 ≤ length self.old }
        ensures { TakesField A.kind A.Fits A.spell self.old self.new result }
    {
        match self.next() {
            Some(text) => A::read(alloc, text),
            None => Err(LineFault::Fields),
        }
    }

    /// Takes all the fields of a row.
    pub fn row<R: Row>(&mut self, alloc: Global) -> Result<R, LineFault>
        ensures { IsReading (IsRowFault R.kinds) R.Fit R.spell self.old result }
    {
        if self.count() != R::COUNT {
            return Err(LineFault::Fields);
        }
        R::read(alloc, self)
    }
}
