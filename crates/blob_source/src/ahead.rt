ghost use Rattle.std.specs.Prelude.{◌≡◌, ◌≢◌, ◌≤◌, [], drop, length, IfOk};
ghost use Rattle.std.specs.Io.KnownBytes.{prepend_known};
ghost use Rattle.blob_source.specs.Faults.{Rose};
ghost use Rattle.blob_source.specs.Parts.{Fills};

use crate::filled::Filled;
use crate::source::Source;
use blob_words::{Failed, NoMemory, zeros};
use std::alloc::Global;
use std::marker::Model;

// How many bytes a read asks for.
const READ_AHEAD: usize = 1 << 16;

// The bytes that were read and not taken yet. Contracts see them as a list.
#[derive(Debug, Drop)]
pub struct Ahead {
    buffer: Vec<u8>,
    from: usize,
    to: usize,
}

impl Model for Ahead {
    ghost use Rattle.std.specs.Prelude.{ℕ, ◌-◌, ◌<◌, ◌≤◌, List, drop, take, vec_len};

    ghost Value = { List ℕ };

    ghost view = { λ ahead. take (ahead.to - ahead.from) (drop ahead.from ahead.buffer.items) };

    ghost invariant = { λ ahead. (ahead.from ≤ ahead.to) × (ahead.to ≤ vec_len ahead.buffer)
        × (0 < vec_len ahead.buffer) };
}

impl Ahead {
    pub fn new(alloc: Global) -> Result<Ahead, NoMemory>
        ensures { IfOk result (λ ahead. ahead ≡ []) }
    {
        let buffer = zeros(alloc, READ_AHEAD)?;
        Ok(Ahead {
            buffer,
            from: 0,
            to: 0,
        })
    }

    pub fn as_slice(&self) -> &[u8]
        ensures { result.now ≡ self.now }
    {
        &self.buffer[self.from..self.to]
    }

    // Lets the first `count` bytes go.
    pub fn skip(&mut self, count: usize)
        requires { count ≤ length self.old }
        ensures { self.new ≡ drop count self.old }
    {
        self.from += count;
    }

    // Reads some bytes where there are none.
    pub fn fill<S: Source>(&mut self, source: &mut S) -> Filled
        ensures filled { Fills (prepend_known self.old (S.left source.old))
            (prepend_known self.new (S.left source.new)) self.new result }
        ensures good { result ≢ Filled.Fault → S.faults source.new ≡ S.faults source.old }
        ensures cause { result ≡ Filled.Fault → Rose (S.faults source.old) (S.faults source.new) }
        ensures later { S.faults source.old ≤ S.faults source.new }
    {
        if self.from < self.to {
            return Filled::Some;
        }
        self.from = 0;
        self.to = 0;
        match source.read(&mut self.buffer) {
            Ok(0) => Filled::End,
            Ok(count) => {
                self.to = count;
                Filled::Some
            }
            Err(Failed) => Filled::Fault,
        }
    }
}
