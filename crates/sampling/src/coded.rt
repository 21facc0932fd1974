// Samples with ESS 1 (W6). Where no byte waits, those up to the next byte FF are data, and are run by themselves: they are the most, and their rules the shortest (docs/SPEED.md).
ghost use Rattle.std.specs.Prelude.{true, cond, ◌≡◌, ◌+◌, ◌≤◌, ◌<◌, ◌^◌, eqb, length, drop};
ghost use Rattle.registers.specs.Control.{embedded};
ghost use Rattle.codes.specs.Bytes.{waiting_count};
ghost use Rattle.output.specs.Answers as output_answers;
ghost use Rattle.output.specs.WellFormed.{Laid};
ghost use Rattle.rules.proofs.WellFormed.{WellFormed};
ghost use Rattle.full_word.specs.Answers as word_answers;
ghost use Rattle.sampling.specs.Answers as sample_answers;
ghost use Rattle.sampling.specs.DataBytes as data_bytes;
ghost use Rattle.sampling.specs.Notes as note_rules;

use crate::kinds::{ByCodes, Datum};
use crate::{step, steps_of};
use codes::{Waiting, begins_code};
use output::{SLOTS, SampleAnswer};
use rules::{Capture, Core};
use samples::pixel_data;

// How many samples come before the first whose byte begins a code.
fn data_run(samples: &[u32]) -> usize
    ensures { result ≡ data_bytes.data_run samples.now }
{
    samples
        .iter()
        .position(|&w| begins_code(pixel_data(w) % 256))
        .unwrap_or(samples.len())
}

// How far the samples from `first` on are data, whose bytes begin no code: not at all where a byte waits.
pub fn data_end(s: Capture, samples: &[u32], first: usize) -> usize
    requires { first ≤ length samples.now }
    ensures { result ≡ cond (eqb (waiting_count s.waiting) 0) (first + data_bytes.data_run (drop first samples.now)) first }
{
    if matches!(s.waiting, Waiting::Zero) {
        return first + data_run(&samples[first..]);
    }
    first
}

// The samples in order with ESS 1.
pub fn coded_steps(
    d: Core,
    slots: &mut [u32; SLOTS],
    buffer: &mut [u8],
    answer: &mut SampleAnswer,
    samples: &[u32],
) -> Core
    requires well_formed { WellFormed (word_answers.device d slots.old) }
    requires laid { Laid (output_answers.left d.output slots.old) }
    requires samples_bound { d.output.counts.samples + length samples.now < 2 ^ 32 }
    requires cr_value { embedded d.capture.registers.cr ≡ true }
    ensures { sample_answers.noted result slots.new buffer.new answer.new ≡ note_rules.noted_steps (sample_answers.noted d slots.old buffer.old answer.old) samples.now }
{
    let mut e = d;
    let mut rest = samples;
    while let Some((&w, later)) = rest.split_first() {
        let n = data_end(e.capture, rest, 0);
        if n > 0 {
            let (data, later) = rest.split_at(n);
            e = steps_of::<Datum>(e, slots, buffer, answer, data);
            rest = later;
        } else {
            e = step::<ByCodes>(e, slots, buffer, answer, w);
            rest = later;
        }
    }
    e
}
