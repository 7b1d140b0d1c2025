ghost use Rattle.std.specs.Prelude.{ℕ, ◌≡◌, ◌-◌, ◌<◌, true, length, slice_index};
ghost use Rattle.blob_words.specs.declared.bounds.TheConstants.{MOST_BLOBS};
ghost use Rattle.blob_registry.specs.Lists.{turned, PutOn};
ghost use Rattle.blob_registry.specs.Numbers.{AreBelow};

use blob_words::bounds::MOST_BLOBS;
use first_fit::FirstFit;

/// The place of a number in the list of the sweep.
pub fn turned(number: usize) -> usize
    requires { number < MOST_BLOBS }
    ensures value { result ≡ turned number }
    ensures within { result < MOST_BLOBS }
{
    MOST_BLOBS - 1 - number
}

/// Puts numbers on the list of the pass over endings.
pub fn look_at_all(looks: &mut FirstFit, numbers: &[u64])
    requires sized { length looks.old ≡ MOST_BLOBS }
    requires below { AreBelow MOST_BLOBS numbers.now }
    ensures { PutOn (λ number. number) looks.old looks.new numbers.now }
{
    for number in numbers {
        looks.set(*number as usize, 0);
    }
}

/// Puts numbers on the list of the sweep.
pub fn weigh_all(weighs: &mut FirstFit, numbers: &[u64])
    requires sized { length weighs.old ≡ MOST_BLOBS }
    requires below { AreBelow MOST_BLOBS numbers.now }
    ensures { PutOn turned weighs.old weighs.new numbers.now }
{
    for number in numbers {
        weighs.set(turned(*number as usize), 0);
    }
}
