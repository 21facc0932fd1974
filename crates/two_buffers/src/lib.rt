// Samples with two frame buffers (W2): the rules of a sample as they are, over the buffer of the oldest held word and at its place; then what the sample's events do to the turns. The
// functions are for the crate `board`, which calls them on well-formed boards; each states its result as an equation with its definition.
#![tactic(auto)]

ghost use Rattle.std.specs.Prelude.{not, ◌&&◌, ◌≡◌, ℕ, ◌+◌, ◌<◌, ◌^◌, length};
ghost use Rattle.buffers.specs.Turns.{oldest_place as oldest_at};
ghost use Rattle.buffers.specs.Kept as buffers_kept;
ghost use Rattle.output.specs.Answers as output_answers;
ghost use Rattle.output.specs.WellFormed.{Laid};
ghost use Rattle.rules.specs.State.{is_open};
ghost use Rattle.rules.specs.Sample as sample_rules;
ghost use Rattle.output.specs.declared.Packing.TheVariants.{Completed as completed};
ghost use Rattle.rules.proofs.WellFormed.{WellFormed, CaptureOk};
ghost use Rattle.board_rules.specs.TwoBuffers as buffer_rules;
ghost use Rattle.board_rules.proofs.WellFormed.{TurnsOk};
ghost use Rattle.capture.specs.Answers as capture_answers;
ghost use Rattle.full_word.specs.Answers as word_answers;
ghost use Rattle.sampling.specs.Answers as sample_answers;
ghost use Rattle.sampling.specs.Notes as note_rules;
ghost use Rattle.two_buffers.specs.Answers as two_answers;

mod stretches;

use crate::stretches::{run_stretch, stretch_end};
use board_rules::{Landing, TwoAnswer};
use buffers::{Buffer, Turns};
use capture::frame::is_open;
use coded_capture::coded_sample;
use fields::control;
use fifo::notes::no_answer;
use output::{Packing, SLOTS, SampleAnswer};
use rules::{Capture, Core, Frame};
use sampling::steps;
use turning::{
    discarded, frame_ended, oldest_buffer, oldest_place, word_held, word_landed, word_lost,
};

// What is kept for two buffers, with A's next place and the number of held words.
#[derive(Clone, Copy)]
pub struct Kept {
    pub turns: Turns,
    pub place_a: u32,
    pub held: u32,
}

// The state but for the slots.
#[derive(Clone, Copy)]
pub struct Turned {
    pub core: Core,
    pub turns: Turns,
}

// A sample's two answers, and what it leaves. The answers stand first for speed (docs/SPEED.md).
#[derive(Clone, Copy)]
pub struct TwoStepped {
    pub answer: TwoAnswer,
    pub after: Turned,
}

// The oldest held word, if there is one, has landed at a place of its buffer.
fn landed_at(u: Buffer, place: u32, k: Kept) -> Kept
    requires { (0 < k.held) × (place + 1 < 2 ^ 32) }
    ensures { two_answers.kept result ≡ buffers_kept.landed_at u place (two_answers.kept k) }
{
    let turns = word_landed(k.held, k.turns);
    let held = k.held - 1;
    match u {
        Buffer::A => Kept {
            turns,
            place_a: place + 1,
            held,
        },
        Buffer::B => Kept {
            turns: Turns {
                place: place + 1,
                ..turns
            },
            held,
            ..k
        },
    }
}

// A landing.
fn after_landing(landing: Option<usize>, k: Kept) -> Kept
    requires { oldest_at k.place_a k.turns + 1 < 2 ^ 32 }
    ensures { two_answers.kept result ≡ buffers_kept.keeps (two_answers.kept k) (buffer_rules.landing_event landing) }
{
    match landing {
        Some(_) if 0 < k.held => {
            landed_at(oldest_buffer(k.turns), oldest_place(k.place_a, k.turns), k)
        }
        _ => k,
    }
}

// A completed word: held, or lost.
fn after_word(packing: Packing, k: Kept) -> Kept
    requires { (v : ℕ) → packing ≡ completed v → two_answers.TagsFit (two_answers.kept k) }
    ensures { two_answers.kept result ≡ buffers_kept.keeps (two_answers.kept k) (buffer_rules.word_event packing) }
{
    match packing {
        Packing::Nothing => k,
        Packing::Completed(_) => Kept {
            turns: word_held(k.held, k.turns),
            held: k.held + 1,
            ..k
        },
        Packing::Lost => Kept {
            turns: word_lost(k.turns),
            held: 0,
            ..k
        },
    }
}

// ERR, or else the end of the frame, which was open and is closed.
fn after_frame(error: bool, ended: bool, k: Kept) -> Kept
    ensures { two_answers.kept result ≡ buffers_kept.keeps (two_answers.kept k) (two_answers.closing_events error ended) }
{
    if error {
        Kept {
            turns: discarded(k.turns),
            held: 0,
            ..k
        }
    } else if ended {
        Kept {
            turns: frame_ended(k.held, k.turns),
            ..k
        }
    } else {
        k
    }
}

// Whether ERR rises at a sample: with ESS 1 alone.
fn error_at(s: Capture, w: u32) -> bool
    requires { CaptureOk capture_answers.most_lines s }
    ensures { result ≡ (sample_rules.capture_sample s w).error }
{
    control::embedded(s.registers.cr) && coded_sample(s, w).error
}

// A frame was open and is closed.
fn closes(before: Frame, after: Frame) -> bool
    ensures { result ≡ (is_open before && not (is_open after)) }
{
    is_open(before) && !is_open(after)
}

fn in_buffer(u: Buffer, landing: Option<usize>) -> Option<Landing>
    ensures { result ≡ buffer_rules.landing_in u landing }
{
    landing.map(|byte| Landing { buffer: u, byte })
}

// Some samples over one of the two frame buffers.
fn steps_in(
    u: Buffer,
    d: Core,
    slots: &mut [u32; SLOTS],
    a: &mut [u8],
    b: &mut [u8],
    answer: &mut SampleAnswer,
    samples: &[u32],
) -> Core
    requires well_formed { WellFormed (word_answers.device d slots.old) }
    requires laid { Laid (output_answers.left d.output slots.old) }
    requires samples_bound { d.output.counts.samples + length samples.now < 2 ^ 32 }
    ensures answer_after { sample_answers.noted result slots.new (buffer_rules.part u (two_answers.pair a.new b.new)) answer.new ≡ note_rules.noted_steps (sample_answers.noted d slots.old (buffer_rules.part u (two_answers.pair a.old b.old)) answer.old) samples.now }
    ensures b_after { two_answers.pair a.new b.new ≡ buffer_rules.with_part u (buffer_rules.part u (two_answers.pair a.new b.new)) (two_answers.pair a.old b.old) }
{
    match u {
        Buffer::A => steps(d, slots, a, answer, samples),
        Buffer::B => steps(d, slots, b, answer, samples),
    }
}

// The core with another place for the next word.
fn placed(place: u32, mut core: Core) -> Core
    ensures { result ≡ two_answers.placed place core }
{
    core.output.place = place;
    core
}

// What a sample leaves, from its answers.
fn after_events(k: Kept, s: Capture, core: Core, answer: SampleAnswer, w: u32) -> Turned
    requires capture_ok { CaptureOk capture_answers.most_lines s }
    requires turns_bound { oldest_at k.place_a k.turns + 1 < 2 ^ 32 }
    requires by_index { (v : ℕ) → answer.packed ≡ completed v → two_answers.TagsFit (buffers_kept.keeps (two_answers.kept k) (buffer_rules.landing_event answer.landing)) }
    ensures { result ≡ two_answers.turned (buffers_kept.keeps (two_answers.kept k) (two_answers.events s w core answer)) core }
{
    let landed = after_landing(answer.landing, k);
    let worded = after_word(answer.packed, landed);
    let ended = closes(s.frame, core.capture.frame);
    let last = after_frame(error_at(s, w), ended, worded);
    Turned {
        core: placed(last.place_a, core),
        turns: last.turns,
    }
}

// One sample. Here and in the other functions the slots and the frame buffers are lent and the rest goes by value, each by itself, for speed (docs/SPEED.md).
pub fn two_step(
    d: Turned,
    slots: &mut [u32; SLOTS],
    a: &mut [u8],
    b: &mut [u8],
    w: u32,
) -> TwoStepped
    requires well_formed { WellFormed (word_answers.device d.core slots.old) }
    requires turns_ok { TurnsOk d.core.output d.turns }
    requires laid { Laid (output_answers.left d.core.output slots.old) }
    requires samples_bound { d.core.output.counts.samples + 1 < 2 ^ 32 }
    ensures { two_answers.stepped result slots.new a.new b.new ≡ buffer_rules.two_step (two_answers.two d slots.old a.old b.old) w }
{
    let k = Kept {
        turns: d.turns,
        place_a: d.core.output.place,
        held: d.core.output.held,
    };
    let u = oldest_buffer(k.turns);
    let core = placed(oldest_place(k.place_a, k.turns), d.core);
    let mut answer = no_answer();
    let core = steps_in(u, core, slots, a, b, &mut answer, &[w]);
    let after = after_events(k, d.core.capture, core, answer, w);
    TwoStepped {
        answer: TwoAnswer {
            landing: in_buffer(u, answer.landing),
            packed: answer.packed,
        },
        after,
    }
}

// The samples in order, by stretches where they are some.
pub fn two_steps(
    d: Turned,
    slots: &mut [u32; SLOTS],
    a: &mut [u8],
    b: &mut [u8],
    samples: &[u32],
) -> Turned
    requires well_formed { WellFormed (word_answers.device d.core slots.old) }
    requires turns_ok { TurnsOk d.core.output d.turns }
    requires laid { Laid (output_answers.left d.core.output slots.old) }
    requires samples_bound { d.core.output.counts.samples + length samples.now < 2 ^ 32 }
    ensures { two_answers.two result slots.new a.new b.new ≡ buffer_rules.two_steps (two_answers.two d slots.old a.old b.old) samples.now }
{
    let mut e = d;
    let mut rest = samples;
    while let Some((&w, later)) = rest.split_first() {
        let n = stretch_end(e.core, e.turns, a.len(), b.len(), rest);
        if n > 0 {
            let (now, later) = rest.split_at(n);
            e = run_stretch(e, slots, a, b, now);
            rest = later;
        } else {
            e = two_step(e, slots, a, b, w).after;
            rest = later;
        }
    }
    e
}
