//! The most views that a blob of some parts may need.
ghost use Rattle.std.specs.Prelude.{◌≡◌, slice_get};
ghost use Rattle.std.specs.Option.{option_map_or};
ghost use Rattle.store_laws.specs.Deciding.{line_weight_in, part_weight_in, weight_in};
ghost use Rattle.blob_store.specs.Seen.{parts_of};

use crate::parts::Parts;
use crate::row::Row;
use blob_words::BlobName;
use session_script::Part;

// The weight of the row at a place.
fn weight_at(rows: &[Row], place: usize) -> u64
    ensures { result ≡ option_map_or (λ row. row.weight) (slice_get rows.now place) 0 }
{
    match rows.get(place) {
        Some(row) => row.weight,
        None => 0,
    }
}

impl Parts {
    // The weight of the blob that stands under a name.
    pub(crate) fn weight_under(&self, name: BlobName) -> u64
        ensures { result ≡ weight_in (parts_of self.now) name }
    {
        let Some(number) = self.registry.number_of(name) else {
            return 0;
        };
        match self.registry.entry_under(number) {
            Some(_) => weight_at(self.rows.as_slice(), number as usize),
            None => 0,
        }
    }

    // The most views that a part may need.
    fn part_weight(&self, part: &Part) -> u64
        ensures { result ≡ part_weight_in (parts_of self.now) part.now }
    {
        match part {
            Part::Embedded(bytes) => (bytes.len() as u64).div_ceil(self.limits.page),
            Part::Asked(len) => len.div_ceil(self.limits.page),
            Part::FileRange { len, .. } => (*len).min(1),
            Part::BlobRange { b, len, .. } => (*len).min(self.weight_under(*b)),
            Part::HandleRange { len, .. } => (*len).min(1),
        }
    }

    // The most views that the parts may need.
    pub(crate) fn line_weight(&self, parts: &[Part]) -> u128
        ensures { result ≡ line_weight_in (parts_of self.now) parts.now }
    {
        let mut total: u128 = 0;
        for part in parts {
            total += u128::from(self.part_weight(part));
        }
        total
    }
}
