ghost use Rattle.std.specs.Prelude.{ℕ, ◌≡◌, ◌<◌, length, nat_eq, OnErr, OnOk};
ghost use Rattle.std.specs.List.{position};
ghost use Rattle.blob_registry.specs.Lists.{list_at, AreEntered, LackNumber, MayBeEntered, Strikes};
ghost use Rattle.blob_registry.specs.Numbers.{ends_in, with_last, without, AreBelow, IsRising};

use blob_words::{NoMemory, Octets64};

// Whether a number is the last of a list.
fn ends_in(list: &Octets64, number: u64) -> bool
    ensures { result ≡ ends_in number list.now }
{
    match list.as_slice().last() {
        Some(last) => *last == number,
        None => false,
    }
}

// The first place of a number in a list.
fn place_of(list: &[u64], number: u64) -> Option<usize>
    ensures { result ≡ position (λ other. nat_eq other number) list.now }
{
    list.iter().position(|other| *other == number)
}

// Takes a number off a list. A sweep takes the last, a pass over endings one of the first.
fn strike(list: &mut Octets64, number: u64)
    requires { IsRising list.old }
    ensures { list.new ≡ without number list.old }
{
    if ends_in(list, number) {
        let _last = list.pop(); // the number itself
        return;
    }
    if let Some(place) = place_of(list.as_slice(), number) {
        let _struck = list.remove(place); // the number itself
    }
}

/// Takes a number off the lists of these.
pub fn strike_all(lists: &mut Vec<Octets64>, sources: &[u64], number: u64)
    requires rising { (other : ℕ) → IsRising (list_at lists.old.items other) }
    requires below { AreBelow (length lists.old.items) sources.now }
    ensures { Strikes lists.old.items lists.new.items number sources.now }
{
    for source in sources {
        strike(&mut lists[*source as usize], number);
    }
}

// Puts a number at the end of a list, where it isn't there already.
fn enter(list: &mut Octets64, number: u64) -> Result<(), NoMemory>
    ensures ok { OnOk result (list.new ≡ with_last number list.old) }
    ensures err { OnErr result (list.new ≡ list.old) }
{
    if ends_in(list, number) {
        return Ok(());
    }
    list.push(number)
}

/// Puts a number that is on none of them at the end of the lists of these; after want of memory of
/// some.
pub fn enter_all(lists: &mut Vec<Octets64>, sources: &[u64], number: u64) -> Result<(), NoMemory>
    requires fresh { LackNumber lists.old.items number }
    requires below { AreBelow (length lists.old.items) sources.now }
    ensures long { length lists.new.items ≡ length lists.old.items }
    ensures ok { OnOk result (AreEntered lists.old.items lists.new.items number sources.now) }
    ensures err { OnErr result (MayBeEntered lists.old.items lists.new.items number sources.now) }
{
    for source in sources {
        enter(&mut lists[*source as usize], number)?;
    }
    Ok(())
}
