//! The renderers, with their origins.
ghost use Rattle.std.specs.Prelude.{◌≡◌, ℕ, ◌==◌, [], find, false, OnOk};
ghost use Rattle.std.specs.List.{list_any};
ghost use Rattle.std.specs.Option.{option_copied, option_map_or};
ghost use Rattle.blob_model.specs.Renderers.{spawned_after, dead_after};
ghost use Rattle.history_notions.specs.Kept.{is_dead_in};

use blob_words::{ItemList, NoMemory, Origin, RendererId};
use session_script::Event;
use std::alloc::Global;
use std::marker::Model;

/// A renderer that was spawned.
#[derive(Debug, Drop)]
pub struct Renderer {
    pub number: u32,
    pub origin: Origin,
}

impl Model for Renderer {
    ghost use Rattle.blob_model.specs.Renderers as model;

    ghost Value = { model.Renderer };

    ghost view = { λ one. record { number = one.number; origin = one.origin } };
}

/// The renderers that are dead.
#[derive(Debug, Drop)]
pub struct Dead {
    numbers: Vec<u32>,
    all: bool,
}

impl Model for Dead {
    ghost use Rattle.history_notions.specs.Kept.{Deaths};

    ghost Value = { Deaths };

    ghost view = { λ dead. record { numbers = dead.numbers.items; all = dead.all } };
}

fn is_among(numbers: &[u32], number: u32) -> bool
    ensures { result ≡ list_any (λ one. one == number) numbers.now }
{
    numbers.iter().any(|one| *one == number)
}

fn find_renderer(spawned: &[Renderer], number: u32) -> Option<&Renderer>
    ensures { option_copied result ≡ find (λ one. one.number == number) spawned.now }
{
    spawned.iter().find(|one| one.number == number)
}

/// An accepted `spawn` line makes a renderer.
pub fn spawned_after(
    alloc: Global,
    event: &Event,
    spawned: &mut ItemList<Renderer>,
) -> Result<(), NoMemory>
    ensures { OnOk result (spawned.new ≡ spawned_after event.now spawned.old) }
{
    match event {
        Event::Spawn { r, origin } => {
            let origin = origin.copy(alloc)?;
            spawned.push(Renderer {
                number: r.0,
                origin,
            })
        }
        _ => Ok(()),
    }
}

/// Whether a renderer of this number was spawned.
pub fn is_spawned(spawned: &[Renderer], number: u32) -> bool
    ensures { result ≡ list_any (λ one. one.number == number) spawned.now }
{
    spawned.iter().any(|one| one.number == number)
}

/// The origin of the renderer.
pub fn origin_of(spawned: &[Renderer], number: u32) -> &[u8]
    ensures { result.now ≡ option_map_or (λ one. one.origin)
        (find (λ one. one.number == number) spawned.now) [] }
{
    match find_renderer(spawned, number) {
        Some(one) => one.origin.as_slice(),
        None => &[],
    }
}

impl Dead {
    /// Nobody.
    pub fn new(alloc: Global) -> Dead
        ensures { (number : ℕ) → is_dead_in result number ≡ false }
    {
        Dead {
            numbers: Vec::new(alloc),
            all: false,
        }
    }

    /// Whether the renderer of this number is dead.
    pub fn has(&self, number: u32) -> bool
        ensures { result ≡ is_dead_in self.now number }
    {
        if self.all {
            return true;
        }
        is_among(&self.numbers, number)
    }

    /// A renderer dies by its `die` line or by the `end` line.
    pub fn hear(&mut self, event: &Event) -> Result<(), NoMemory>
        ensures { OnOk result ((number : ℕ)
            → is_dead_in self.new number
            ≡ dead_after event.now number (is_dead_in self.old number)) }
    {
        match event {
            Event::Die { r } => self.numbers.push(r.0)?,
            Event::Finish => self.all = true,
            _ => {}
        }
        Ok(())
    }
}
