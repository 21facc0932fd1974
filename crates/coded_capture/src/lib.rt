// Rules 2 to 8 of one sample with ESS 1 (W6): frames and lines by codes in the data. A rule has the name of its definition. The functions are for the crates above, which call
// them on well-formed devices.
// No type holds `CaptureOk` or the bound on the rate counter: a device may be malformed, which `well_formed::malformed`, refusal 1 and the laws speak of, in the same type.
#![tactic(auto)]

ghost use Rattle.std.specs.Prelude.{true, false, ◌≡◌, ◌+◌, ◌<◌, ◌^◌, cond, eqb, length};
ghost use Rattle.registers.specs.Control as control_fields;
ghost use Rattle.registers.specs.Control.{edm, embedded};
ghost use Rattle.packing.specs.Packing.{Joins};
ghost use Rattle.codes.specs.declared.Waiting.TheVariants.{Zero};
ghost use Rattle.codes.specs.Bytes as code_bytes;
ghost use Rattle.codes.specs.Bytes.{waiting_count, waiting_after};
ghost use Rattle.rules.specs.State as state;
ghost use Rattle.rules.specs.Capture as capture_rules;
ghost use Rattle.rules.specs.Codes as code_rules;
ghost use Rattle.rules.specs.Sample as sample_rules;
ghost use Rattle.rules.specs.WellFormed.{lines, pixels};
ghost use Rattle.rules.specs.declared.Frame.TheVariants.{Closed, Open};
ghost use Rattle.rules.proofs.WellFormed.{CaptureOk};
ghost use Rattle.capture.specs.Answers as capture_answers;
ghost use Rattle.coded_capture.specs.Answers as coded_answers;

use capture::syncs::ERR;
use capture::{Captured, apart, frame, pack, pixels, remember_pins, syncs, with_scan};
use codes::{Meaning, Waiting, by_line_starts, is_code, meaning_of, waiting_after};
use fields::control;
use rules::{Capture, Frame, Scan, Syncs};
use samples::pixel_data;

// The state after a sample, its word, whether FRAME is due, and whether ERR rose. The two flags stand beside the word, as in the definition's `Captured`: FRAME is due with and
// without a word.
#[derive(Clone, Copy)]
pub struct Coded {
    pub state: Capture,
    pub word: Option<u32>,
    pub due: bool,
    pub error: bool,
}

impl Coded {
    // Nothing but the state changes.
    #[tactic(auto, unfolding(rules::specs::Capture::no_word))]
    fn no_word(state: Capture) -> Self
        ensures { coded_answers.coded result ≡ capture_rules.no_word state }
    {
        Self {
            state,
            word: None,
            due: false,
            error: false,
        }
    }
}

// The syncs after a start code, a line end and a frame end.
const NOT_BLANKING: Syncs = Syncs {
    hsync: false,
    vsync: false,
};

const LINE_ENDED: Syncs = Syncs {
    hsync: true,
    vsync: false,
};

const FRAME_ENDED: Syncs = Syncs {
    hsync: true,
    vsync: true,
};

// A line is open.
#[tactic(auto, unfolding(rules::specs::Codes::in_line))]
pub fn in_line(s: Capture) -> bool
    ensures { result ≡ code_rules.in_line s }
{
    frame::is_open(s.frame) && !s.syncs.hsync
}

// HSYNC blanks outside a line, VSYNC outside a frame.
#[tactic(auto, unfolding(rules::specs::Codes::coded_syncs))]
pub fn coded_syncs(s: Capture) -> Syncs
    ensures { result ≡ code_rules.coded_syncs s }
{
    let hsync = !in_line(s);
    let vsync = !frame::is_open(s.frame);
    Syncs { hsync, vsync }
}

// Only a frame start counts, or a frame end if FSC is 0xFF.
#[tactic(auto, unfolding(rules::specs::Codes::seeks))]
fn seeks(s: Capture) -> bool
    ensures { result ≡ code_rules.seeks s }
{
    !frame::is_open(s.frame) && !s.syncs.vsync
}

// The state with other syncs, and with other bytes waiting.
#[tactic(auto, unfolding(rules::specs::State::with_syncs))]
fn with_syncs(syncs: Syncs, s: Capture) -> Capture
    ensures { result ≡ state.with_syncs syncs s }
{
    Capture { syncs, ..s }
}

#[tactic(auto, unfolding(rules::specs::State::with_waiting))]
fn with_waiting(waiting: Waiting, s: Capture) -> Capture
    ensures { result ≡ state.with_waiting waiting s }
{
    Capture { waiting, ..s }
}

// Rule 6: a byte more in the line; the place before so many bytes.
#[tactic(auto, unfolding(rules::specs::Codes::arrived))]
fn arrived(f: Scan) -> Scan
    requires { f.pixels + 1 < 2 ^ 32 }
    ensures { result ≡ code_rules.arrived f }
{
    Scan {
        pixels: f.pixels + 1,
        ..f
    }
}

#[tactic(auto, unfolding(rules::specs::Codes::before))]
fn before(later: u32, f: Scan) -> Scan
    ensures { result ≡ code_rules.before later f }
{
    Scan {
        pixels: f.pixels.saturating_sub(later),
        ..f
    }
}

// Rules 7 and 8: a datum at its place. The answer is put together in place, without `Captured::no_word`, in the loop over samples (docs/SPEED.md).
#[tactic(auto, unfolding(rules::specs::Codes::datum, rules::specs::Capture::no_word))]
#[inline(always)]
fn datum(s: Capture, taken: bool, f: Scan, x: u32) -> Captured
    requires { Joins (edm s.registers.cr) s.partial.count s.partial.bits x }
    ensures { capture_answers.captured result ≡ code_rules.datum s taken f x }
{
    if pixels::captured(s, taken, f) {
        return pack(s, x);
    }
    Captured {
        state: s,
        word: None,
    }
}

// The data that a byte releases, at most three, each at its place before the later ones and the bytes that still wait (`later`, which is no index into the data).
fn each_datum(s: Capture, taken: bool, f: Scan, data: &[u32], still: u32) -> Captured
    requires frame_value { (s.frame ≡ Open taken f) × (length data.now + still < 2 ^ 32) }
    requires capture_ok { CaptureOk 4294967295 s }
    ensures { capture_answers.captured result ≡ code_rules.each_datum s taken f data.now still }
{
    let mut state = s;
    let mut word = None;
    let mut later = data.len() as u32 + still;
    for x in data {
        later -= 1;
        let c = datum(state, taken, before(later, f), *x);
        state = c.state;
        word = word.or(c.word);
    }
    Captured { state, word }
}

// What a byte releases, where some wait.
#[tactic(auto, unfolding(codes::specs::Bytes::released, codes::specs::Bytes::waiting_after, rules::specs::Codes::each_datum))]
fn released(s: Capture, taken: bool, f: Scan, waiting: Waiting, x: u32) -> Captured
    requires frame_value { s.frame ≡ Open taken f }
    requires capture_ok { CaptureOk 4294967295 s }
    ensures { capture_answers.captured result ≡ code_rules.each_datum s taken f (code_bytes.released waiting x) (waiting_count (waiting_after waiting x)) }
{
    match (waiting, x) {
        (Waiting::Zero, 0xFF) | (Waiting::One | Waiting::Two, 0) | (Waiting::Three, _) =>
            Captured::no_word(s),
        (Waiting::Zero, _) => each_datum(s, taken, f, &[x], 0),
        (Waiting::One, 0xFF) => each_datum(s, taken, f, &[0xFF], 1),
        (Waiting::One, _) => each_datum(s, taken, f, &[0xFF, x], 0),
        (Waiting::Two, 0xFF) => each_datum(s, taken, f, &[0xFF, 0], 1),
        (Waiting::Two, _) => each_datum(s, taken, f, &[0xFF, 0, x], 0),
    }
}

// A byte that is not the last of a code.
#[tactic(auto, unfolding(rules::specs::Codes::byte_in, rules::specs::State::with_frame, rules::specs::State::with_waiting))]
fn byte_in(s: Capture, x: u32) -> Captured
    requires { CaptureOk capture_answers.most_lines s }
    ensures { capture_answers.captured result ≡ code_rules.byte_in s.frame s x }
{
    let still = waiting_after(s.waiting, x);
    match s.frame {
        Frame::Open(taken, f) if !s.syncs.hsync => {
            let place = arrived(f);
            let t = with_waiting(still, with_scan(taken, place, s));
            released(t, taken, place, s.waiting, x)
        }
        _ => Captured::no_word(with_waiting(still, s)),
    }
}

// The three bytes of a code that waited are taken out of their line.
#[tactic(auto, unfolding(rules::specs::Codes::taken_out))]
fn taken_out(s: Capture) -> Capture
    ensures { result ≡ code_rules.taken_out s.frame s }
{
    match s.frame {
        Frame::Open(taken, f) if !s.syncs.hsync => with_scan(taken, before(3, f), s),
        _ => s,
    }
}

// Rule 5: the frame's start opens its first line. With CAPTURE 0 the frame is not taken or counted.
#[tactic(auto, unfolding(rules::specs::Codes::frame_opens, rules::specs::Codes::first_place, rules::specs::State::with_rate))]
fn frame_opens(s: Capture) -> Capture
    requires { s.rate + 1 < 2 ^ 32 }
    ensures { result ≡ code_rules.frame_opens s }
{
    let first_place = Scan {
        lines: 1,
        pixels: 0,
    };
    if control::capture(s.registers.cr) {
        let rate = frame::next_rate(s);
        let taken = frame::takes(s);
        let t = with_scan(taken, first_place, s);
        return with_syncs(NOT_BLANKING, Capture { rate, ..t });
    }
    with_syncs(NOT_BLANKING, with_scan(false, first_place, s))
}

// Rule 6: the next line, counted from its code.
#[tactic(auto, unfolding(rules::specs::Codes::line_opens))]
fn line_opens(taken: bool, f: Scan, s: Capture) -> Capture
    requires { f.lines + 1 < 2 ^ 32 }
    ensures { result ≡ code_rules.line_opens taken f s }
{
    let place = Scan {
        lines: f.lines + 1,
        pixels: 0,
    };
    with_syncs(NOT_BLANKING, with_scan(taken, place, s))
}

// Rule 3 with CAPTURE 1.
fn end_flags(s: Capture, now: Syncs) -> Capture
    ensures { result ≡ cond (control_fields.capture s.registers.cr) (capture_rules.sync_flags s now) s }
{
    if control::capture(s.registers.cr) {
        return syncs::sync_flags(s, now);
    }
    s
}

// Rules 3 and 4 at an end code.
#[tactic(auto, unfolding(rules::specs::Codes::closes, rules::specs::State::with_syncs))]
fn closes(s: Capture, now: Syncs) -> Coded
    ensures { coded_answers.coded result ≡ code_rules.closes s now }
{
    let u = with_syncs(coded_syncs(s), s);
    let closed = frame::frame_closes(end_flags(u, now), now);
    Coded {
        state: with_syncs(now, closed),
        word: None,
        due: frame::frame_due(s.frame, u, now),
        error: false,
    }
}

// ERR: the frame closes without FRAME, and the partial word is dropped.
#[tactic(auto, unfolding(rules::specs::Codes::errs))]
fn errs(s: Capture) -> Coded
    ensures { coded_answers.coded result ≡ code_rules.errs s }
{
    let closed = with_syncs(NOT_BLANKING, frame::close_frame(s));
    Coded {
        state: syncs::raise::<ERR>(closed),
        word: None,
        due: false,
        error: true,
    }
}

// A line start.
#[tactic(auto, unfolding(rules::specs::Codes::line_start))]
fn line_start(s: Capture) -> Coded
    requires frame_bound { lines s.frame + 1 < 2 ^ 32 }
    requires rate_bound { s.rate + 1 < 2 ^ 32 }
    ensures { coded_answers.coded result ≡ code_rules.line_start s.frame s }
{
    match s.frame {
        Frame::Closed if by_line_starts(s.registers.escr) => Coded::no_word(frame_opens(s)),
        Frame::Open(taken, f) if !in_line(s) => Coded::no_word(line_opens(taken, f, s)),
        _ => errs(s),
    }
}

// What a code does by its meaning.
#[tactic(auto, using(capture::proofs::Laws::short_period), unfolding(rules::specs::Codes::obeyed))]
fn obeyed(meaning: Meaning, s: Capture) -> Coded
    requires { CaptureOk capture_answers.most_lines s }
    ensures { coded_answers.coded result ≡ code_rules.obeyed meaning s }
{
    match meaning {
        Meaning::FrameEnd if frame::is_open(s.frame) => closes(s, FRAME_ENDED),
        Meaning::FrameEnd => Coded::no_word(s),
        Meaning::FrameStart if frame::is_open(s.frame) => errs(s),
        Meaning::FrameStart => Coded::no_word(frame_opens(s)),
        Meaning::LineEnd if in_line(s) => closes(s, LINE_ENDED),
        Meaning::LineEnd => errs(s),
        Meaning::LineStart => line_start(s),
        Meaning::Unmatched => Coded::no_word(s),
    }
}

// While only a frame start counts, or a frame end if FSC is 0xFF.
#[tactic(auto, unfolding(rules::specs::Codes::sought))]
fn sought(meaning: Meaning, s: Capture) -> Capture
    requires { s.rate + 1 < 2 ^ 32 }
    ensures { result ≡ code_rules.sought meaning s }
{
    match meaning {
        Meaning::FrameEnd if by_line_starts(s.registers.escr) => with_syncs(FRAME_ENDED, s),
        Meaning::FrameStart => frame_opens(s),
        Meaning::FrameEnd | Meaning::LineEnd | Meaning::LineStart | Meaning::Unmatched => s,
    }
}

#[tactic(auto, using(capture::proofs::Laws::short_period), unfolding(rules::specs::Codes::at_code))]
fn at_code(meaning: Meaning, s: Capture) -> Coded
    requires { CaptureOk capture_answers.most_lines s }
    ensures { coded_answers.coded result ≡ code_rules.at_code meaning s }
{
    if seeks(s) {
        return Coded::no_word(sought(meaning, s));
    }
    obeyed(meaning, s)
}

// Rules 3 to 8 at a working edge that carries a byte.
#[tactic(auto, unfolding(rules::specs::Codes::at_byte))]
fn at_byte(s: Capture, x: u32) -> Coded
    requires { CaptureOk capture_answers.most_lines s }
    ensures { coded_answers.coded result ≡ code_rules.at_byte s x }
{
    if is_code(s.waiting) {
        let meaning = meaning_of(s.registers.escr, s.registers.esur, x);
        return at_code(meaning, with_waiting(Waiting::Zero, taken_out(s)));
    }
    let c = byte_in(s, x);
    Coded {
        state: c.state,
        word: c.word,
        due: false,
        error: false,
    }
}

// Rules 2 to 8 of a sample with ESS 1.
#[tactic(auto, unfolding(rules::specs::Sample::capture_sample, rules::specs::Sample::edge, rules::specs::Sample::byte_of))]
pub fn coded_sample(s: Capture, w: u32) -> Coded
    requires capture_ok { CaptureOk capture_answers.most_lines s }
    requires cr_value { embedded s.registers.cr ≡ true }
    ensures { coded_answers.coded result ≡ sample_rules.capture_sample s w }
{
    let s = apart(s);
    let seen = remember_pins(s, w);
    if syncs::goes_on(s, w) {
        return at_byte(seen, pixel_data(w) % 256);
    }
    Coded::no_word(seen)
}

// A datum that no byte waits before, and that begins no code.
#[tactic(auto, using(crate::proofs::DataLaws::no_line, crate::proofs::DataLaws::none_waits), unfolding(rules::specs::Codes::byte_in))]
fn line_datum(s: Capture, x: u32) -> Captured
    requires waiting_value { (s.waiting ≡ Zero) × (eqb x 0xFF ≡ false) }
    requires capture_ok { CaptureOk capture_answers.most_lines s }
    ensures { capture_answers.captured result ≡ code_rules.byte_in s.frame s x }
{
    match s.frame {
        Frame::Open(taken, f) if !s.syncs.hsync => {
            let place = arrived(f);
            datum(with_scan(taken, place, s), taken, place, x)
        }
        _ => Captured::no_word(s),
    }
}

// Rules 2 to 8 of a sample with ESS 1 whose byte is a datum: none waits, and it begins no code. Such a sample is the rule, and by itself it is quick (docs/SPEED.md).
#[tactic(auto, unfolding(rules::specs::Sample::capture_sample, rules::specs::Sample::edge, rules::specs::Sample::byte_of))]
pub fn data_sample(s: Capture, w: u32) -> Captured
    requires capture_ok { CaptureOk capture_answers.most_lines s }
    requires cr_value { (embedded s.registers.cr ≡ true) × (s.waiting ≡ Zero) × (eqb (sample_rules.byte_of w) 0xFF ≡ false) }
    ensures { capture_answers.captured result ≡ sample_rules.capture_sample s w }
{
    let s = apart(s);
    let seen = remember_pins(s, w);
    if syncs::goes_on(s, w) {
        return line_datum(seen, pixel_data(w) % 256);
    }
    Captured::no_word(seen)
}
