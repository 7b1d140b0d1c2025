ghost use Rattle.std.specs.Prelude.{◌≡◌, true, IfOk};
ghost use Rattle.blob_words.specs.Origin.{is_origin};
ghost use Rattle.session_gen.specs.Gen.{first_lines, limits};

use blob_words::{Limits, NoMemory, Octets, Origin, RendererId};
use session_script::Event;
use std::alloc::Global;

// The line that begins a renderer of this origin.
fn spawn_line(alloc: Global, number: u32, origin: &[u8]) -> Result<Event, NoMemory>
    requires { is_origin origin.now ≡ true }
    ensures { IfOk result (λ event. event ≡ Event.Spawn (record { 0 = number }) origin.now) }
{
    let Ok(origin) = Origin::new(Octets::from_slice(alloc, origin)?) else {
        unreachable!()
    };
    Ok(Event::Spawn {
        r: RendererId(number),
        origin,
    })
}

// The limits of the session.
fn limits() -> Limits
    ensures { result ≡ limits }
{
    Limits {
        memory: 16_384,
        disk: 16_777_216,
        big: 16_384,
        inline_max: 256,
        segment: 4_096,
        page: 1_024,
        chunk: 1_024,
    }
}

/// The lines of a session before its first round.
pub fn first_lines(alloc: Global) -> Result<Vec<Event>, NoMemory>
    ensures { IfOk result (λ events. events.items ≡ first_lines) }
{
    let mut events = Vec::new(alloc);
    events.push(Event::Limits(limits()))?;
    events.push(spawn_line(alloc, 0, b"https://0.test")?)?;
    events.push(spawn_line(alloc, 1, b"https://1.test")?)?;
    events.push(spawn_line(alloc, 2, b"https://2.test")?)?;
    events.push(spawn_line(alloc, 3, b"https://3.test")?)?;
    Ok(events)
}
