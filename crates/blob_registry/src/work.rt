ghost use Rattle.std.specs.Prelude.{ℕ, ◌≡◌, ◌<◌, ◌≤◌, ◌++◌, [], true, false, length, set};
ghost use Rattle.std.specs.Prelude.{slice_index, IfOk, OnErr, OnOk};
ghost use Rattle.blob_words.specs.declared.bounds.TheConstants.{MOST_BLOBS};
ghost use Rattle.blob_registry.specs.Lists.{list_at, turned, LackNumber, Strikes};
ghost use Rattle.blob_registry.specs.Numbers.{AreBelow, IsRising};
ghost use Rattle.blob_registry.specs.Work.{AreWhole, Ended, Enters, Gone, IsNew, StaysAs};

use crate::lists::{look_at_all, turned, weigh_all};
use crate::strike::{enter_all, strike_all};
use blob_words::bounds::MOST_BLOBS;
use blob_words::{NoMemory, Octets64};
use first_fit::FirstFit;
use std::alloc::Global;

/// What the next passes look at, and who needs whom.
#[derive(Debug, Drop)]
pub struct Work {
    alloc: Global,
    /// 0 under each build number at which the next pass over endings looks, else 1.
    pub looks: FirstFit,
    /// 0 at the place of each build number at which the next sweep looks, else 1. The greatest
    /// number has the first place.
    pub weighs: FirstFit,
    /// Under each build number those of the unfinished entries that have it as a source.
    pub dependents: Vec<Octets64>,
}

// A list of nothing.
fn none_listed(alloc: Global) -> Result<FirstFit, NoMemory>
    ensures sized { IfOk result (λ list. length list ≡ MOST_BLOBS) }
    ensures none { IfOk result
        (λ list. (number : ℕ) → number < MOST_BLOBS → slice_index list number ≡ 1) }
{
    let mut list = FirstFit::new(alloc);
    for _number in 0..MOST_BLOBS {
        list.push(1)?;
    }
    Ok(list)
}

// The list of those who need an entry.
pub fn list_at(lists: &Vec<Octets64>, number: usize) -> &Octets64
    requires { number < length lists.now.items }
    ensures { result.now ≡ list_at lists.now.items number }
{
    &lists[number]
}

impl Work {
    /// Nothing to do. It takes the room of both lists.
    pub fn new(alloc: Global) -> Result<Work, NoMemory>
        ensures { IfOk result IsNew }
    {
        Ok(Work {
            alloc,
            looks: none_listed(alloc)?,
            weighs: none_listed(alloc)?,
            dependents: Vec::new(alloc),
        })
    }

    /// The next pass looks at an entry.
    pub fn look_at(&mut self, number: usize)
        requires { number < length self.old.looks }
        ensures { self.new ≡ record self.old { looks = set self.old.looks number 0 } }
    {
        self.looks.set(number, 0);
    }

    /// The next sweep looks at an entry.
    pub fn weigh(&mut self, number: usize)
        requires within { number < MOST_BLOBS }
        requires sized { length self.old.weighs ≡ MOST_BLOBS }
        ensures { self.new ≡ record self.old { weighs = set self.old.weighs (turned number) 0 } }
    {
        self.weighs.set(turned(number), 0);
    }

    /// An entry was looked at. Where it ended, those who need it are looked at, it and its sources
    /// are weighed, and it needs nobody any more.
    pub fn looked(&mut self, number: usize, ended: bool, sources: &[u64])
        requires whole { AreWhole self.old }
        requires within { number < MOST_BLOBS }
        requires listed { number < length self.old.dependents.items }
        requires sources { AreBelow number sources.now }
        ensures plain { ended ≡ false
            → self.new ≡ record self.old { looks = set self.old.looks number 1 } }
        ensures ended { ended ≡ true → Ended self.old self.new number sources.now }
    {
        self.looks.set(number, 1);
        if !ended {
            return;
        }
        let list = list_at(&self.dependents, number);
        look_at_all(&mut self.looks, list.as_slice());
        self.weighs.set(turned(number), 0);
        weigh_all(&mut self.weighs, sources);
        strike_all(&mut self.dependents, sources, number as u64);
    }

    /// An entry was weighed. Where it went, its sources are weighed, and it needs nobody any more.
    pub fn weighed(&mut self, number: usize, lives: bool, sources: &[u64])
        requires whole { AreWhole self.old }
        requires within { number < MOST_BLOBS }
        requires listed { number < length self.old.dependents.items }
        requires free { lives ≡ false → list_at self.old.dependents.items number ≡ [] }
        requires sources { AreBelow number sources.now }
        ensures plain { lives ≡ true
            → self.new ≡ record self.old { weighs = set self.old.weighs (turned number) 1 } }
        ensures gone { lives ≡ false → Gone self.old self.new number sources.now }
    {
        self.weighs.set(turned(number), 1);
        if lives {
            return;
        }
        weigh_all(&mut self.weighs, sources);
        strike_all(&mut self.dependents, sources, number as u64);
        self.dependents[number] = Octets64::new(self.alloc);
    }

    // Makes the list of a number that is new.
    fn make_list(&mut self, number: usize) -> Result<(), NoMemory>
        requires { number ≤ length self.old.dependents.items }
        ensures stays { StaysAs self.old self.new }
        ensures long { OnOk result (number < length self.new.dependents.items) }
    {
        if number < self.dependents.len() {
            return Ok(());
        }
        self.dependents.push(Octets64::new(self.alloc))?;
        Ok(())
    }

    /// Puts a number that is new on the lists of its sources.
    pub fn enter(&mut self, number: usize, sources: &[u64]) -> Result<(), NoMemory>
        requires next { number ≤ length self.old.dependents.items }
        requires rising { (other : ℕ) → IsRising (list_at self.old.dependents.items other) }
        requires above { (other : ℕ) → AreBelow number (list_at self.old.dependents.items other) }
        requires sources { AreBelow number sources.now }
        ensures ok { OnOk result (Enters self.old self.new number sources.now) }
        ensures err { OnErr result (StaysAs self.old self.new) }
    {
        self.make_list(number)?;
        if let Err(fault) = enter_all(&mut self.dependents, sources, number as u64) {
            strike_all(&mut self.dependents, sources, number as u64);
            return Err(fault);
        }
        Ok(())
    }

    /// Takes a number that is new off the lists of its sources again.
    pub fn withdraw(&mut self, number: usize, sources: &[u64])
        requires rising { (other : ℕ) → IsRising (list_at self.old.dependents.items other) }
        requires listed { number < length self.old.dependents.items }
        requires sources { AreBelow number sources.now }
        ensures looks { self.new.looks ≡ self.old.looks }
        ensures weighs { self.new.weighs ≡ self.old.weighs }
        ensures strikes { Strikes self.old.dependents.items self.new.dependents.items number
            sources.now }
    {
        strike_all(&mut self.dependents, sources, number as u64);
    }
}
