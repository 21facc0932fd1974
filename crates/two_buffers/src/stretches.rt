// Samples by stretches (docs/SPEED.md), in which no frame ends, ERR does not rise, and at most one frame completes words: with ESS 1 data where no byte waits, by the pins those at which VSYNC keeps
// its level, if that does not blank or no frame is open. If all held words are of the buffer where its words go, such samples are run over that buffer as with one; if the oldest held word has no
// room, over its buffer, and none lands. The turns follow from the counts.
ghost use Rattle.std.specs.Prelude.{true, cond, not, ◌&&◌, ◌≡◌, ◌+◌, ◌≤◌, ◌<◌, ◌^◌, length};
ghost use Rattle.registers.specs.Control.{embedded};
ghost use Rattle.buffers.specs.declared.Content.TheVariants.{Landing};
ghost use Rattle.buffers.specs.Turns as turn_rules;
ghost use Rattle.output.specs.Answers as output_answers;
ghost use Rattle.output.specs.WellFormed.{Laid};
ghost use Rattle.rules.proofs.WellFormed.{WellFormed};
ghost use Rattle.full_word.specs.Answers as word_answers;
ghost use Rattle.board_rules.specs.TwoBuffers as buffer_rules;
ghost use Rattle.board_rules.proofs.WellFormed.{TurnsOk};
ghost use Rattle.two_buffers.specs.Answers as two_answers;
ghost use Rattle.two_buffers.specs.Stretches as stretch_rules;

use crate::{Turned, placed, steps_in};
use buffers::{Buffer, Content, Turns};
use capture::frame::is_open;
use capture::syncs::blanks;
use fields::control;
use fifo::notes::no_answer;
use output::{Counts, Output, SLOTS};
use rules::{Capture, Core};
use samples::{level_end, vsync_pin};
use sampling::data_end;
use turning::{
    discarded, first_word, oldest_buffer, oldest_opens, oldest_place, other, with_content,
    with_tags, word_lost,
};

// The tags of so many held words that all go to one buffer.
fn tags_in(u: Buffer, held: u32) -> u32
    requires { held ≤ 32 }
    ensures { result ≡ stretch_rules.tags_in u held }
{
    match u {
        Buffer::A => 0,
        Buffer::B => ((1u64 << held) - 1) as u32,
    }
}

// The buffer of the words that come next.
fn next_buffer(t: Turns) -> Buffer
    ensures { result ≡ stretch_rules.next_buffer t }
{
    if t.begun { t.turn } else { other(t.turn) }
}

// All held words are of that buffer, one after the other, and the oldest alone may open a frame.
fn alone(held: u32, t: Turns) -> bool
    requires { held ≤ 32 }
    ensures { result ≡ stretch_rules.alone held t }
{
    held == 0 || (t.begun && t.in_b == tags_in(t.turn, held) && t.opening <= 1)
}

// Whether the first of the held words and those that come opens a frame; and the place where it lands.
fn first_opens(held: u32, t: Turns) -> bool
    ensures { result ≡ stretch_rules.first_opens held t }
{
    if held == 0 { !t.begun } else { oldest_opens(t) }
}

fn first_place(held: u32, place_a: u32, t: Turns) -> u32
    ensures { result ≡ stretch_rules.first_place held place_a t }
{
    if first_opens(held, t) {
        return 0;
    }
    match next_buffer(t) {
        Buffer::A => place_a,
        Buffer::B => t.place,
    }
}

// A frame's first word switches, where a word was completed.
fn switched(completed: bool, t: Turns) -> Turns
    ensures { result ≡ cond completed (turn_rules.first_word t) t }
{
    if completed { first_word(t) } else { t }
}

// A frame's first word has landed.
fn opened_in(landed: bool, u: Buffer, t: Turns) -> Turns
    ensures { result ≡ cond landed (turn_rules.with_content u Landing t) t }
{
    if landed {
        with_content(u, Content::Landing, t)
    } else {
        t
    }
}

// The tags of the words that are held then.
fn opening_in(opens: bool, held: u32) -> u32
    ensures { result ≡ stretch_rules.opening_in opens held }
{
    if opens && 0 < held { 1 } else { 0 }
}

fn tagged(lost: bool, u: Buffer, opens: bool, held: u32, t: Turns) -> Turns
    requires { held ≤ 32 }
    ensures { result ≡ cond lost (turn_rules.discarded t) (turn_rules.with_tags (stretch_rules.tags_in u held) (stretch_rules.opening_in opens held) t) }
{
    if lost {
        discarded(t)
    } else {
        with_tags(tags_in(u, held), opening_in(opens, held), t)
    }
}

// B's place, and A's, once words have landed in one of them.
fn place_b(u: Buffer, landed: bool, place: u32, t: Turns) -> Turns
    ensures { result ≡ stretch_rules.place_b u landed place t }
{
    match u {
        Buffer::B if landed => Turns { place, ..t },
        _ => t,
    }
}

fn place_a(u: Buffer, landed: bool, place: u32, before: u32) -> u32
    ensures { result ≡ stretch_rules.place_a u landed place before }
{
    match u {
        Buffer::A if landed => place,
        _ => before,
    }
}

// The turns after a stretch, by the counts before and after it.
fn turns_after(t: Turns, held: u32, before: Counts, after: Output) -> Turns
    requires { after.held ≤ 32 }
    ensures { result ≡ stretch_rules.turns_after t held before after }
{
    let u = next_buffer(t);
    let landed = before.landed < after.counts.landed;
    let opens = first_opens(held, t);
    let s = switched(before.completed < after.counts.completed, t);
    let k = opened_in(opens && landed, u, s);
    let lost = before.discarded < after.counts.discarded;
    let m = tagged(lost, u, opens && !landed, after.held, k);
    place_b(u, landed, after.place, m)
}

// A stretch over that buffer.
fn run_on(
    d: Turned,
    slots: &mut [u32; SLOTS],
    a: &mut [u8],
    b: &mut [u8],
    samples: &[u32],
) -> Turned
    requires well_formed { WellFormed (word_answers.device d.core slots.old) }
    requires turns_ok { TurnsOk d.core.output d.turns }
    requires laid { Laid (output_answers.left d.core.output slots.old) }
    requires samples_bound { d.core.output.counts.samples + length samples.now < 2 ^ 32 }
    requires turns_value { stretch_rules.alone d.core.output.held d.turns ≡ true }
    requires lasts { stretch_rules.Lasts (embedded d.core.capture.registers.cr) d.core.capture samples.now }
    ensures { two_answers.two result slots.new a.new b.new ≡ buffer_rules.two_steps (two_answers.two d slots.old a.old b.old) samples.now }
{
    let t = d.turns;
    let o = d.core.output;
    let u = next_buffer(t);
    let core = placed(first_place(o.held, o.place, t), d.core);
    let mut answer = no_answer();
    let core = steps_in(u, core, slots, a, b, &mut answer, samples);
    let after = core.output;
    let landed = o.counts.landed < after.counts.landed;
    let turns = turns_after(t, o.held, o.counts, after);
    let place = place_a(u, landed, after.place, o.place);
    Turned {
        core: placed(place, core),
        turns,
    }
}

// The oldest held word has no room, the frame buffers being so long.
fn no_room(o: Output, t: Turns, a: usize, b: usize) -> bool
    ensures { result ≡ stretch_rules.no_room o t a b }
{
    let long = match oldest_buffer(t) {
        Buffer::A => a,
        Buffer::B => b,
    };
    o.held != 0 && long < 4 * (oldest_place(o.place, t) as usize) + 4
}

// The tag of a word that comes behind so many others, where it opens a frame; and the turns with words held behind those that were, so many before and so many in all.
fn opening_behind(begun: bool, before: u32) -> u32
    requires { before < 32 }
    ensures { result ≡ stretch_rules.opening_behind begun before }
{
    if begun { 0 } else { 1 << before }
}

fn words_behind(before: u32, held: u32, t: Turns) -> Turns
    requires { (before < held) × (held ≤ 32) × (t.in_b < 2 ^ before) × (t.opening < 2 ^ before) }
    ensures { result ≡ stretch_rules.words_behind before held t }
{
    let s = first_word(t);
    let more = tags_in(s.turn, held) - tags_in(s.turn, before);
    with_tags(
        t.in_b + more,
        t.opening + opening_behind(t.begun, before),
        s,
    )
}

// The turns after such a stretch.
fn turns_behind(before: u32, lost: bool, held: u32, t: Turns) -> Turns
    requires { (held ≤ 32) × (t.in_b < 2 ^ before) × (t.opening < 2 ^ before) }
    ensures { result ≡ stretch_rules.turns_behind before lost held t }
{
    if lost {
        word_lost(t)
    } else if before < held {
        words_behind(before, held, t)
    } else {
        t
    }
}

// A stretch while the oldest held word has no room: words that come are held behind the others, or lost. With `run_on` it shares two calls alone: buffer, place and turns are each found by rules of
// their own, so a function for both would take these as closures and read no plainer.
fn run_behind(
    d: Turned,
    slots: &mut [u32; SLOTS],
    a: &mut [u8],
    b: &mut [u8],
    samples: &[u32],
) -> Turned
    requires well_formed { WellFormed (word_answers.device d.core slots.old) }
    requires turns_ok { TurnsOk d.core.output d.turns }
    requires laid { Laid (output_answers.left d.core.output slots.old) }
    requires samples_bound { d.core.output.counts.samples + length samples.now < 2 ^ 32 }
    requires b_value { stretch_rules.no_room d.core.output d.turns (length a.old) (length b.old) ≡ true }
    requires lasts { stretch_rules.Lasts (embedded d.core.capture.registers.cr) d.core.capture samples.now }
    ensures { two_answers.two result slots.new a.new b.new ≡ buffer_rules.two_steps (two_answers.two d slots.old a.old b.old) samples.now }
{
    let t = d.turns;
    let o = d.core.output;
    let u = oldest_buffer(t);
    let core = placed(oldest_place(o.place, t), d.core);
    let mut answer = no_answer();
    let core = steps_in(u, core, slots, a, b, &mut answer, samples);
    let after = core.output;
    let lost = o.counts.discarded < after.counts.discarded;
    let turns = turns_behind(o.held, lost, after.held, t);
    Turned {
        core: placed(o.place, core),
        turns,
    }
}

// A stretch, the one way or the other.
pub fn run_stretch(
    d: Turned,
    slots: &mut [u32; SLOTS],
    a: &mut [u8],
    b: &mut [u8],
    samples: &[u32],
) -> Turned
    requires well_formed { WellFormed (word_answers.device d.core slots.old) }
    requires turns_ok { TurnsOk d.core.output d.turns }
    requires laid { Laid (output_answers.left d.core.output slots.old) }
    requires samples_bound { d.core.output.counts.samples + length samples.now < 2 ^ 32 }
    requires b_value { stretch_rules.runs d.core.output d.turns (length a.old) (length b.old) ≡ true }
    requires lasts { stretch_rules.Lasts (embedded d.core.capture.registers.cr) d.core.capture samples.now }
    ensures { two_answers.two result slots.new a.new b.new ≡ buffer_rules.two_steps (two_answers.two d slots.old a.old b.old) samples.now }
{
    if alone(d.core.output.held, d.turns) {
        run_on(d, slots, a, b, samples)
    } else {
        run_behind(d, slots, a, b, samples)
    }
}

// Vertical blanking with no frame open, or no vertical blanking.
fn goes_on(blank: bool, in_frame: bool) -> bool
    ensures { result ≡ stretch_rules.goes_on blank in_frame }
{
    !blank || !in_frame
}

// How many such samples come first: data up to the next byte that may begin a code, or those of one level of VSYNC.
fn lasting_end(s: Capture, samples: &[u32]) -> usize
    requires { 0 < length samples.now }
    ensures { result ≡ stretch_rules.lasting_end s samples.now 0 }
{
    let cr = s.registers.cr;
    if control::embedded(cr) {
        return data_end(s, samples, 0);
    }
    let w = samples[0];
    if goes_on(blanks(vsync_pin(w), control::vspol(cr)), is_open(s.frame)) {
        return level_end(samples, 0, w);
    }
    0
}

// Held words that let a stretch run.
fn runs(o: Output, t: Turns, a: usize, b: usize) -> bool
    requires { o.held ≤ 32 }
    ensures { result ≡ stretch_rules.runs o t a b }
{
    alone(o.held, t) || no_room(o, t, a, b)
}

// How many of the samples are one stretch; 0 where they begin none.
pub fn stretch_end(core: Core, t: Turns, a: usize, b: usize, samples: &[u32]) -> usize
    requires { (core.output.held ≤ 32) × (0 < length samples.now) }
    ensures { result ≡ stretch_rules.stretch_end core t a b samples.now 0 }
{
    if runs(core.output, t, a, b) {
        lasting_end(core.capture, samples)
    } else {
        0
    }
}
