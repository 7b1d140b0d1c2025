ghost use Rattle.std.specs.Prelude.{◌≡◌, ◌++◌, length, map, OnErr, OnOk};
ghost use Rattle.store_reach.specs.Reach.{piece_no};
ghost use Rattle.store_reach.specs.Windows.{listed, taken, taken_if, IsBlank};

use blob_words::{NoMemory, PieceList, PieceNo};
use std::marker::Model;

const WIDTH: usize = 4096;

/// So many piece numbers in a row, which of them came, and the least that came behind them. It
/// takes no memory but its own.
#[derive(Drop)]
pub struct Window {
    start: u32,
    // A mark for each number from the start on.
    marks: [bool; WIDTH],
    next: Option<u32>,
}

impl Model for Window {
    ghost use Rattle.store_reach.specs.Windows.{AreNumbers, Marks};

    ghost Value = { Marks };

    ghost view = { λ window. record {
      start = window.start;
      marks = window.marks;
      next = window.next;
    } };

    ghost invariant = { λ window. AreNumbers window.start window.marks };
}

impl Window {
    /// Nothing came yet. The first number is `start`.
    pub fn new(start: u32) -> Window
        ensures { IsBlank start result }
    {
        Window {
            start,
            marks: [false; WIDTH],
            next: None,
        }
    }

    /// A piece comes.
    pub fn take(&mut self, piece: PieceNo)
        ensures { self.new ≡ taken self.old piece }
    {
        let number = piece.0;
        if number < self.start {
            return;
        }
        let place = (number - self.start) as usize;
        if place < self.marks.len() {
            self.marks[place] = true;
            return;
        }
        self.next = match self.next {
            Some(next) => Some(number.min(next)),
            None => Some(number),
        };
    }

    /// A piece comes, where there is one.
    pub fn take_if(&mut self, piece: Option<PieceNo>)
        ensures { self.new ≡ taken_if self.old piece }
    {
        if let Some(piece) = piece {
            self.take(piece);
        }
    }

    /// The least number that came behind those of the window.
    pub fn next(&self) -> Option<u32>
        ensures { result ≡ self.now.next }
    {
        self.next
    }

    /// How many of its numbers came.
    pub fn count(&self) -> usize
        ensures { result ≡ length (listed self.now.start self.now.marks) }
    {
        let mut count = 0;
        for mark in self.marks.iter() {
            if *mark {
                count += 1;
            }
        }
        count
    }

    /// Puts those of its numbers that came at the end of a list, rising.
    pub fn list(&self, list: &mut PieceList) -> Result<(), NoMemory>
        ensures { OnOk result
            (list.new ≡ list.old ++ map piece_no (listed self.now.start self.now.marks)) }
    {
        for (place, mark) in self.marks.iter().enumerate() {
            if *mark {
                list.push(PieceNo(self.start + place as u32))?;
            }
        }
        Ok(())
    }
}
