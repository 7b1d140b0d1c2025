//! The fields behind a word, all of them at once.

ghost use Rattle.std.specs.Prelude.{◌≡◌, ◌≤◌, ◌∷◌, [], length, refl};
ghost use Rattle.text_fields.specs.Reading.{TakesFields};

use crate::field::Field;
use crate::fields::Fields;
use crate::line_fault::LineFault;
use crate::values::Values;
use std::alloc::Global;

/// The values of the fields behind a word.
pub trait Row: Values + Sized {
    ghost use Rattle.std.specs.Prelude.{◌≡◌, ◌≤◌, ℕ, List, length};
    ghost use Rattle.text_fields.specs.Kind.{Kind, AllSpell};

    /// How many fields there are.
    const COUNT: usize;

    ghost COUNT: { ℕ };

    // What each field holds.
    ghost kinds: { List Kind };

    // The values that the types have.
    ghost Fit: { Self → Type 0 };

    /// Takes the values that the first fields spell; there are so many.
    fn read(alloc: Global, fields: &mut Fields<'_>) -> Result<Self, LineFault>
        requires { COUNT ≤ length fields.old }
        ensures { TakesFields kinds Fit Self.spell fields.old fields.new result };

    ghost counted: { length kinds ≡ COUNT };

    ghost spelled: { (values : Self) → Fit values → AllSpell kinds (Self.spell values) };
}

impl<A: Field> Row for (A,) {
    const COUNT: usize = 1;

    ghost COUNT = { 1 };

    ghost kinds = { A.kind ∷ [] };

    ghost Fit = { λ values. A.Fits values.0 };

    ghost counted = { refl };

    ghost spelled = { λ values fit. (A.spelled values.0 fit, tt) };

    fn read(alloc: Global, fields: &mut Fields<'_>) -> Result<Self, LineFault> {
        let a = fields.take::<A>(alloc)?;
        Ok((a,))
    }
}

impl<A: Field + Drop, B: Field> Row for (A, B) {
    const COUNT: usize = 2;

    ghost COUNT = { 2 };

    ghost kinds = { A.kind ∷ B.kind ∷ [] };

    ghost Fit = { λ values. A.Fits values.0 × B.Fits values.1 };

    ghost counted = { refl };

    ghost spelled = { λ values fit. (A.spelled values.0 fit.0, (B.spelled values.1 fit.1, tt)) };

    fn read(alloc: Global, fields: &mut Fields<'_>) -> Result<Self, LineFault> {
        let a = fields.take::<A>(alloc)?;
        let (b,) = <(B,)>::read(alloc, fields)?;
        Ok((a, b))
    }
}

impl<A: Field + Drop, B: Field + Drop, C: Field> Row for (A, B, C) {
    const COUNT: usize = 3;

    ghost COUNT = { 3 };

    ghost kinds = { A.kind ∷ B.kind ∷ C.kind ∷ [] };

    ghost Fit = { λ values. A.Fits values.0 × B.Fits values.1 × C.Fits values.2 };

    ghost counted = { refl };

    ghost spelled = { λ values fit. (
      A.spelled values.0 fit.0,
      (B.spelled values.1 fit.1, (C.spelled values.2 fit.2, tt)),
    ) };

    fn read(alloc: Global, fields: &mut Fields<'_>) -> Result<Self, LineFault> {
        let a = fields.take::<A>(alloc)?;
        let (b, c) = <(B, C)>::read(alloc, fields)?;
        Ok((a, b, c))
    }
}

impl<A: Field + Drop, B: Field + Drop, C: Field + Drop, D: Field> Row for (A, B, C, D) {
    const COUNT: usize = 4;

    ghost COUNT = { 4 };

    ghost kinds = { A.kind ∷ B.kind ∷ C.kind ∷ D.kind ∷ [] };

    ghost Fit = { λ values. A.Fits values.0 × B.Fits values.1 × C.Fits values.2 × D.Fits values.3 };

    ghost counted = { refl };

    ghost spelled = { λ values fit. (
      A.spelled values.0 fit.0,
      (B.spelled values.1 fit.1, (C.spelled values.2 fit.2, (D.spelled values.3 fit.3, tt))),
    ) };

    fn read(alloc: Global, fields: &mut Fields<'_>) -> Result<Self, LineFault> {
        let a = fields.take::<A>(alloc)?;
        let (b, c, d) = <(B, C, D)>::read(alloc, fields)?;
        Ok((a, b, c, d))
    }
}

impl<A: Field + Drop, B: Field + Drop, C: Field + Drop, D: Field + Drop, E: Field> Row
    for (A, B, C, D, E) {
    const COUNT: usize = 5;

    ghost COUNT = { 5 };

    ghost kinds = { A.kind ∷ B.kind ∷ C.kind ∷ D.kind ∷ E.kind ∷ [] };

    ghost Fit = { λ values. A.Fits values.0 × B.Fits values.1 × C.Fits values.2 × D.Fits values.3
        × E.Fits values.4 };

    ghost counted = { refl };

    ghost spelled = { λ values fit. (
      A.spelled values.0 fit.0,
      (
        B.spelled values.1 fit.1,
        (
          C.spelled values.2 fit.2,
          (D.spelled values.3 fit.3, (E.spelled values.4 fit.4, tt)),
        ),
      ),
    ) };

    fn read(alloc: Global, fields: &mut Fields<'_>) -> Result<Self, LineFault> {
        let a = fields.take::<A>(alloc)?;
        let (b, c, d, e) = <(B, C, D, E)>::read(alloc, fields)?;
        Ok((a, b, c, d, e))
    }
}

impl<
    A: Field + Drop,
    B: Field + Drop,
    C: Field + Drop,
    D: Field + Drop,
    E: Field + Drop,
    F: Field,
> Row for (A, B, C, D, E, F) {
    const COUNT: usize = 6;

    ghost COUNT = { 6 };

    ghost kinds = { A.kind ∷ B.kind ∷ C.kind ∷ D.kind ∷ E.kind ∷ F.kind ∷ [] };

    ghost Fit = { λ values. A.Fits values.0 × B.Fits values.1 × C.Fits values.2 × D.Fits values.3
        × E.Fits values.4 × F.Fits values.5 };

    ghost counted = { refl };

    ghost spelled = { λ values fit. (
      A.spelled values.0 fit.0,
      (
        B.spelled values.1 fit.1,
        (
          C.spelled values.2 fit.2,
          (D.spelled values.3 fit.3, (E.spelled values.4 fit.4, (F.spelled values.5 fit.5, tt))),
        ),
      ),
    ) };

    fn read(alloc: Global, fields: &mut Fields<'_>) -> Result<Self, LineFault> {
        let a = fields.take::<A>(alloc)?;
        let (b, c, d, e, f) = <(B, C, D, E, F)>::read(alloc, fields)?;
        Ok((a, b, c, d, e, f))
    }
}

impl<
    A: Field + Drop,
    B: Field + Drop,
    C: Field + Drop,
    D: Field + Drop,
    E: Field + Drop,
    F: Field + Drop,
    G: Field,
> Row for (A, B, C, D, E, F, G) {
    const COUNT: usize = 7;

    ghost COUNT = { 7 };

    ghost kinds = { A.kind ∷ B.kind ∷ C.kind ∷ D.kind ∷ E.kind ∷ F.kind ∷ G.kind ∷ [] };

    ghost Fit = { λ values. A.Fits values.0 × B.Fits values.1 × C.Fits values.2 × D.Fits values.3
        × E.Fits values.4 × F.Fits values.5 × G.Fits values.6 };

    ghost counted = { refl };

    ghost spelled = { λ values fit. (
      A.spelled values.0 fit.0,
      (
        B.spelled values.1 fit.1,
        (
          C.spelled values.2 fit.2,
          (
            D.spelled values.3 fit.3,
            (
              E.spelled values.4 fit.4,
              (F.spelled values.5 fit.5, (G.spelled values.6 fit.6, tt)),
            ),
          ),
        ),
      ),
    ) };

    fn read(alloc: Global, fields: &mut Fields<'_>) -> Result<Self, LineFault> {
        let a = fields.take::<A>(alloc)?;
        let (b, c, d, e, f, g) = <(B, C, D, E, F, G)>::read(alloc, fields)?;
        Ok((a, b, c, d, e, f, g))
    }
}
