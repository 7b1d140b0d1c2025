ghost use Rattle.std.specs.Prelude.{◌≡◌, ◌<◌, ◌≤◌, IfOk};
ghost use Rattle.session_gen.specs.Gen.{Gen};

use crate::first::first_lines;
use crate::round::push_round;
use crate::words::Words;
use blob_words::NoMemory;
use session_script::Event;
use std::alloc::Global;

/// The session of a number: four renderers that build, slice and read, round after round. 16
/// rounds fill the memory, and each one behind them pages a piece out.
pub fn generate(alloc: Global, number: u64, rounds: u32) -> Result<Vec<Event>, NoMemory>
    requires some { 0 < rounds }
    requires few { rounds ≤ 4096 }
    ensures { IfOk result (λ events. events.items ≡ Gen number rounds) }
{
    let mut events = first_lines(alloc)?;
    let mut words = Words::new(number);
    for i in 0..rounds {
        push_round(alloc, &mut events, &mut words, i)?;
    }
    events.push(Event::Finish)?;
    Ok(events)
}
