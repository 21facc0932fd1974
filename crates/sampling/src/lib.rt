// One sample whole, over the device and the frame buffer: the grant (rule 1), the capture rules, and the full word (rule 9). The slots are lent and the rest goes by
// value (docs/SPEED.md). The functions are for the crates `device` and `files`, which call them on well-formed devices; each states its result as an equation with its
// definition.
#![tactic(auto)]

ghost use Rattle.std.specs.Prelude.{false, ◌≡◌, ◌+◌, ◌<◌, ◌^◌, length};
ghost use Rattle.samples.specs.Samples.{bus_grant};
ghost use Rattle.output.specs.Answers as output_answers;
ghost use Rattle.output.specs.Output.{grant as rule_1};
ghost use Rattle.output.specs.WellFormed.{Laid};
ghost use Rattle.rules.specs.Capture.{enabled};
ghost use Rattle.rules.specs.Run as run_rules;
ghost use Rattle.rules.specs.WellFormed.{malformed};
ghost use Rattle.rules.proofs.WellFormed.{WellFormed};
ghost use Rattle.sampling.specs.Kinds as kind_rules;
ghost use Rattle.full_word.specs.Answers as word_answers;
ghost use Rattle.sampling.specs.Answers as sample_answers;
ghost use Rattle.sampling.specs.Notes as note_rules;

mod coded;
mod jpeg;
mod kinds;
mod single;

use crate::coded::coded_steps;
pub use crate::coded::data_end;
use crate::jpeg::jpeg_steps;
use crate::kinds::{Kind, Unpadded};
pub use crate::single::sample_core;
use fields::control;
use fifo::notes::{no_answer, note_landing, note_packing};
use fifo::{count_sample, grant, no_landing};
use output::{Granted, Output, SLOTS, SampleAnswer};
use rules::{Capture, Core, Device};
use samples::bus_grant;

// One sample over a core and lent slots: the core after it, and its two answers, the landing as a byte of the lent memory. A refused one leaves no core: so the compiler need
// not keep one (docs/SPEED.md).
#[derive(Clone, Copy)]
pub struct SampledCore {
    pub core: Core,
    pub answer: SampleAnswer,
}

// Rule 1, by the sample's bus grant and ENABLE.
fn granted(s: Capture, o: Output, slots: &mut [u32; SLOTS], buffer: &mut [u8], w: u32) -> Granted
    requires laid { Laid (output_answers.left o slots.old) }
    requires place_bound { (o.place + 1 < 2 ^ 32) × (o.counts.landed + 1 < 2 ^ 32) }
    ensures { output_answers.granted result slots.new buffer.new ≡ rule_1 (bus_grant w) (enabled s) (output_answers.left o slots.old) buffer.old }
{
    if bus_grant(w) {
        return grant(true, control::enable(s.registers.cr), o, slots, buffer);
    }
    no_landing(o)
}

// The nine rules in order for a sample of that kind, with the answers of rules 1 and 9 noted. Here and in the other functions the slots, the frame buffer and the answer are lent and
// the core goes by value, each by itself, for speed (docs/SPEED.md).
fn step<K: Kind>(
    d: Core,
    slots: &mut [u32; SLOTS],
    buffer: &mut [u8],
    answer: &mut SampleAnswer,
    w: u32,
) -> Core
    requires well_formed { WellFormed (word_answers.device d slots.old) }
    requires laid { Laid (output_answers.left d.output slots.old) }
    requires samples_bound { d.output.counts.samples + 1 < 2 ^ 32 }
    requires kind { K.Has d.capture w }
    ensures { sample_answers.noted result slots.new buffer.new answer.new ≡ note_rules.noted_step (sample_answers.noted d slots.old buffer.old answer.old) w }
{
    let s = capture::apart(d.capture);
    let counted = count_sample(d.output);
    let g = granted(s, counted, slots, buffer, w);
    note_landing(g.landing, answer);
    let c = K::after_grant(s, w, g.output, slots);
    note_packing(c.packing, answer);
    c.core
}

// Samples of that kind, in order. A kind's `step` is called at one place, here or in the loop of its module, so that the compiler makes the rules part of that loop (docs/SPEED.md).
fn steps_of<K: Kind>(
    d: Core,
    slots: &mut [u32; SLOTS],
    buffer: &mut [u8],
    answer: &mut SampleAnswer,
    samples: &[u32],
) -> Core
    requires well_formed { WellFormed (word_answers.device d slots.old) }
    requires laid { Laid (output_answers.left d.output slots.old) }
    requires samples_bound { d.output.counts.samples + length samples.now < 2 ^ 32 }
    requires kind { kind_rules.Each K.Has (word_answers.device d slots.old) buffer.old samples.now }
    ensures { sample_answers.noted result slots.new buffer.new answer.new ≡ note_rules.noted_steps (sample_answers.noted d slots.old buffer.old answer.old) samples.now }
{
    let mut e = d;
    for &w in samples {
        e = step::<K>(e, slots, buffer, answer, w);
    }
    e
}

// The samples in order: by codes (W6), with JPEG 1 (W4), or neither.
pub fn steps(
    d: Core,
    slots: &mut [u32; SLOTS],
    buffer: &mut [u8],
    answer: &mut SampleAnswer,
    samples: &[u32],
) -> Core
    requires well_formed { WellFormed (word_answers.device d slots.old) }
    requires laid { Laid (output_answers.left d.output slots.old) }
    requires samples_bound { d.output.counts.samples + length samples.now < 2 ^ 32 }
    ensures { sample_answers.noted result slots.new buffer.new answer.new ≡ note_rules.noted_steps (sample_answers.noted d slots.old buffer.old answer.old) samples.now }
{
    if control::embedded(d.capture.registers.cr) {
        return coded_steps(d, slots, buffer, answer, samples);
    }
    if control::jpeg(d.capture.registers.cr) {
        return jpeg_steps(d, slots, buffer, answer, samples);
    }
    steps_of::<Unpadded>(d, slots, buffer, answer, samples)
}

// The samples in order over a device by value: its slots are taken out for the loop, and put back. What is noted is not read.
pub fn run(d: Device, buffer: &mut [u8], samples: &[u32]) -> Device
    requires d_value { malformed d ≡ false }
    requires samples_bound { d.core.output.counts.samples + length samples.now < 2 ^ 32 }
    ensures { sample_answers.ran result buffer.new ≡ run_rules.steps d buffer.old samples.now }
{
    let mut slots = d.slots;
    let mut answer = no_answer();
    let core = steps(d.core, &mut slots, buffer, &mut answer, samples);
    Device { core, slots }
}
