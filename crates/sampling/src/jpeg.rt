// Samples with JPEG 1 (W4). A word can be padded only where VSYNC blanks and a datum waits; all other samples are run by stretches in which VSYNC keeps its level.
ghost use Rattle.std.specs.Prelude.{false, ◌&&◌, ◌≡◌, ◌+◌, ◌<◌, ◌^◌, ltb, length};
ghost use Rattle.std.specs.Bool.{beq};
ghost use Rattle.registers.specs.Control as control_fields;
ghost use Rattle.samples.specs.Samples as sample_fields;
ghost use Rattle.output.specs.Answers as output_answers;
ghost use Rattle.output.specs.WellFormed.{Laid};
ghost use Rattle.rules.proofs.WellFormed.{WellFormed};
ghost use Rattle.full_word.specs.Answers as word_answers;
ghost use Rattle.sampling.specs.Answers as sample_answers;
ghost use Rattle.sampling.specs.Notes as note_rules;
ghost use Rattle.sampling.specs.Unpadded as unpadded;

use crate::kinds::{Padded, Unpadded};
use crate::{step, steps_of};
use capture::syncs::blanks;
use fields::control;
use output::{SLOTS, SampleAnswer};
use rules::{Capture, Core};
use samples::{level_end, vsync_pin};

// Where a datum waits and VSYNC is at its blanking level.
fn may_pad(s: Capture, w: u32) -> bool
    ensures { result ≡ (ltb 0 s.partial.count && beq (sample_fields.vsync_pin w) (control_fields.vspol s.registers.cr)) }
{
    s.partial.count > 0 && blanks(vsync_pin(w), control::vspol(s.registers.cr))
}

// How many samples are run at once from the first on, which pads no word: it alone, if it might; else those up to another level of VSYNC.
fn stretch(s: Capture, samples: &[u32]) -> usize
    requires { 0 < length samples.now }
    ensures { result ≡ unpadded.stretch samples.now 0 s.partial.count (control_fields.vspol s.registers.cr) }
{
    let w = samples[0];
    if may_pad(s, w) {
        return 1;
    }
    level_end(samples, 0, w)
}

// The samples in order with JPEG 1.
pub fn jpeg_steps(
    d: Core,
    slots: &mut [u32; SLOTS],
    buffer: &mut [u8],
    answer: &mut SampleAnswer,
    samples: &[u32],
) -> Core
    requires well_formed { WellFormed (word_answers.device d slots.old) }
    requires laid { Laid (output_answers.left d.output slots.old) }
    requires samples_bound { d.output.counts.samples + length samples.now < 2 ^ 32 }
    requires cr_value { control_fields.embedded d.capture.registers.cr ≡ false }
    ensures { sample_answers.noted result slots.new buffer.new answer.new ≡ note_rules.noted_steps (sample_answers.noted d slots.old buffer.old answer.old) samples.now }
{
    let mut e = d;
    let mut rest = samples;
    while let Some((&w, later)) = rest.split_first() {
        if capture::pads(e.capture, w) {
            e = step::<Padded>(e, slots, buffer, answer, w);
            rest = later;
        } else {
            let (now, later) = rest.split_at(stretch(e.capture, rest));
            e = steps_of::<Unpadded>(e, slots, buffer, answer, now);
            rest = later;
        }
    }
    e
}
