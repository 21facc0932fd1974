// The device: reset, making one with a depth, the test for malformed devices, register reads and writes, the interrupt line, re-arming, runs and single samples. A
// device goes in by value and comes back by value. Each public function answers for every device and number, states its whole result as one equation
// with a definition of the crate `rules`, and has no `requires`; a refused call gives its refusal, and the caller's device is as it was.
#![tactic(auto)]

ghost use Rattle.std.specs.Prelude.{◌≡◌};
ghost use Rattle.rules.specs.State as state;
ghost use Rattle.rules.specs.RegisterCalls as register_rules;
ghost use Rattle.device.specs.Answers as device_answers;

mod control_writes;
mod register_calls;
mod runs;

use codes::Waiting;
use fifo::clauses::bad_depth;
use output::{Counts, Output, SLOTS, SampleAnswer, USUAL_DEPTH};
use refusals::Refusal;
pub use register_calls::{interrupt, read, rearm, rearmed, write};
use rules::{Capture, Core, Device, Frame, Partial, Pins, Registers, Syncs};
pub use runs::{run, sample};
pub use well_formed::malformed;

// A device after one sample, with the sample's two answers.
#[derive(Clone, Copy)]
pub struct Sampled {
    pub device: Device,
    pub answer: SampleAnswer,
}

// A device after reset, with a depth.
#[tactic(auto, unfolding(rules::specs::State::fresh_of, rules::specs::State::fresh_capture, output::specs::Output::laid, output::specs::Output::with_held, output::specs::Output::holding, output::specs::Output::fresh_output))]
fn fresh_of(depth: u32) -> Device
    ensures { result ≡ state.fresh_of depth }
{
    let capture = Capture {
        registers: Registers {
            cr: 0,
            ris: 0,
            ier: 0,
            cwstrt: 0,
            cwsize: 0,
            escr: 0,
            esur: 0,
        },
        pins: Pins {
            hsync: false,
            vsync: false,
            clock: false,
        },
        syncs: Syncs {
            hsync: false,
            vsync: false,
        },
        frame: Frame::Closed,
        rate: 0,
        partial: Partial { count: 0, bits: 0 },
        waiting: Waiting::Zero,
    };
    let output = Output {
        held: 0,
        place: 0,
        depth,
        counts: Counts {
            samples: 0,
            completed: 0,
            landed: 0,
            discarded: 0,
        },
    };
    Device {
        core: Core { capture, output },
        slots: [0; SLOTS],
    }
}

// A device after reset, with the usual depth of four.
pub fn fresh() -> Device
    ensures { result ≡ state.fresh }
{
    fresh_of(USUAL_DEPTH)
}

// What the definitions have for a device where a call that gives one is refused (docs/BELIEVED.md): it is malformed, and every call refuses it 1. No code calls it.
pub fn no_device() -> Device
    ensures { result ≡ register_rules.no_device }
{
    fresh_of(0)
}

// A device made with a depth of 1 to 32. Refusal 18, and no device.
#[tactic(auto, unfolding(rules::specs::RegisterCalls::made))]
pub fn made(depth: u32) -> Result<Device, Refusal>
    ensures { device_answers.changed register_rules.no_device result ≡ register_rules.made depth }
{
    if bad_depth(depth) {
        return Err(Refusal::Depth);
    }
    Ok(fresh_of(depth))
}
