ghost use Rattle.std.specs.Prelude.{◌≡◌, ◌+◌, ◌≤◌, ◌^◌};
ghost use Rattle.transport_plan.specs.Plan.{has_file_room, fits_inline, file_plan, shared_plan, plan_of, FitsPlan};

use crate::input::PlanInput;
use blob_words::bounds::{MOST_PIECES, MOST_SEGMENTS};
use blob_words::{Counted, Plan};

/// Whether paging is on and page files have room for the own bytes.
fn has_file_room(input: &PlanInput) -> bool
    requires { input.now.embedded + input.now.asked ≤ 2 ^ 62 }
    ensures { result ≡ has_file_room input.now }
{
    let own = input.embedded + input.asked;
    let disk = input.limits.disk;
    input.paging && input.disk_used <= disk && own <= disk - input.disk_used
}

/// Whether the own bytes can be taken from the line as it stands.
fn fits_inline(input: &PlanInput) -> bool
    requires { input.now.embedded + input.now.asked ≤ 2 ^ 62 }
    ensures { result ≡ fits_inline input.now }
{
    let own = input.embedded + input.asked;
    let memory = input.limits.memory;
    if input.asked != 0 || input.waiting || own > input.limits.inline_max {
        return false;
    }
    input.memory_used <= memory && own <= memory - input.memory_used
}

fn file_plan(pieces: u64) -> Plan
    ensures { result ≡ file_plan pieces }
{
    if pieces > MOST_PIECES as u64 {
        Plan::TooMany(Counted::Pieces)
    } else {
        Plan::File(pieces as u32)
    }
}

fn shared_plan(segments: u64) -> Plan
    ensures { result ≡ shared_plan segments }
{
    if segments > MOST_SEGMENTS as u64 {
        Plan::TooMany(Counted::Segments)
    } else {
        Plan::Shared(segments as u32)
    }
}

/// The plan for the own bytes, `pieces` of the input being the number of their pieces.
pub fn plan(input: &PlanInput) -> Plan
    requires { input.now.embedded + input.now.asked ≤ 2 ^ 62 }
    ensures value { result ≡ plan_of input.now }
    ensures fits { FitsPlan input.now result }
{
    let own = input.embedded + input.asked;
    if own == 0 {
        return Plan::None;
    }
    let files = has_file_room(input);
    if own > input.limits.memory && !files {
        return Plan::OutOfMemory;
    }
    if own > input.limits.big && files {
        return file_plan(input.pieces);
    }
    if fits_inline(input) {
        return Plan::Inline;
    }
    shared_plan(own.div_ceil(input.limits.segment))
}
