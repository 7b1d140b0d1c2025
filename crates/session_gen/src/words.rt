ghost use Rattle.std.specs.Prelude.{◌≡◌, ◌+◌, ◌<◌, ◌^◌, IfOk, OnOk};
ghost use Rattle.session_gen.specs.Words.{key, word, word_bytes};

use blob_words::{NoMemory, Octets};
use rand_chacha::ChaCha8Rng;
use rand_core::SeedableRng;
use rand_core::utils::NextWord;
use std::alloc::Global;
use std::marker::Model;

/// The words of a number, one after the other. Contracts see the key and how many were drawn.
#[derive(Drop)]
pub struct Words {
    generator: ChaCha8Rng,
}

impl Model for Words {
    ghost use Rattle.std.specs.Prelude.{◌≡◌};
    ghost use Rattle.session_gen.specs.Words.{Drawn};

    ghost Value = { Drawn };

    ghost view = { λ words. record {
      key = words.generator.key;
      count = words.generator.word_pos;
    } };

    ghost invariant = { λ words. words.generator.stream ≡ 0 };
}

impl Words {
    /// The words of this number; none was drawn.
    pub fn new(number: u64) -> Words
        ensures { result ≡ record { key = key number; count = 0 } }
    {
        let mut seed = [0u8; 32];
        seed[..8].copy_from_slice(&number.to_le_bytes());
        Words {
            generator: ChaCha8Rng::from_seed(seed),
        }
    }

    /// Draws the next word.
    pub fn draw(&mut self) -> u32
        requires { self.old.count < 2 ^ 32 }
        ensures value { result ≡ word self.old.key self.old.count }
        ensures rest { self.new ≡ record self.old { count = self.old.count + 1 } }
    {
        self.generator.next_word()
    }

    /// Draws so many words, and puts their bytes behind each other, the lowest of each first.
    pub fn draw_bytes(&mut self, alloc: Global, count: u32) -> Result<Octets, NoMemory>
        requires { self.old.count + count < 2 ^ 32 }
        ensures bytes { IfOk result
            (λ bytes. bytes ≡ word_bytes self.old.key self.old.count count) }
        ensures rest { OnOk result
            (self.new ≡ record self.old { count = self.old.count + count }) }
    {
        let mut bytes = Octets::new(alloc);
        for _ in 0..count {
            let word = self.draw();
            bytes.extend_from_slice(&word.to_le_bytes())?;
        }
        Ok(bytes)
    }
}
