// Rules 2 to 8 of one sample, over the capture state, by the sync pins, and by whether it pads a word (W4); by codes they are in the crate `coded_capture` (W6). A rule has the
// name of its definition, and an edge is cut by whether a sync blanks. The functions are for the crates above, which call them on well-formed devices; each states its result as an
// equation with its definition.
// No type holds `CaptureOk` or the bound on the rate counter: a device may be malformed, which `well_formed::malformed`, refusal 1 and the laws speak of, in the same type.
#![tactic(auto)]

ghost use Rattle.std.specs.Prelude.{cond, ◌≡◌, ◌+◌, ◌<◌, ◌^◌};
ghost use Rattle.registers.specs.Control.{edm};
ghost use Rattle.packing.specs.Packing.{Joins};
ghost use Rattle.rules.specs.State as state;
ghost use Rattle.rules.specs.Capture as capture_rules;
ghost use Rattle.rules.specs.Unpadded as unpadded_rules;
ghost use Rattle.rules.specs.WellFormed.{lines, pixels};
ghost use Rattle.rules.specs.declared.Frame.TheVariants.{Open};
ghost use Rattle.rules.proofs.WellFormed.{CaptureOk};
ghost use Rattle.capture.specs.Answers as capture_answers;

pub mod frame;
pub mod pixels;
pub mod syncs;

use fields::control;
use packing::{joined, per_word};
use rules::{Capture, Frame, Partial, Pins, Registers, Scan, Syncs};
use samples::{clock_pin, hsync_pin, pixel_data, vsync_pin};

// The state after a sample, and the word that the sample fills by a datum, if it fills one.
#[derive(Clone, Copy)]
pub struct Captured {
    pub state: Capture,
    pub word: Option<u32>,
}

impl Captured {
    // No word is filled. The functions below, in the loop over samples, do without it, the answer being put together in place: so the loop copies no struct (docs/SPEED.md).
    #[tactic(auto, unfolding(rules::specs::Capture::no_word))]
    pub fn no_word(state: Capture) -> Self
        ensures { capture_answers.captured result ≡ capture_rules.no_word state }
    {
        Self { state, word: None }
    }
}

// The same state, each field by itself: so the compiler keeps them apart (docs/SPEED.md).
pub fn apart(s: Capture) -> Capture
    ensures { result ≡ s }
{
    let frame = s.frame;
    let waiting = s.waiting;
    Capture {
        registers: Registers {
            cr: s.registers.cr,
            ris: s.registers.ris,
            ier: s.registers.ier,
            cwstrt: s.registers.cwstrt,
            cwsize: s.registers.cwsize,
            escr: s.registers.escr,
            esur: s.registers.esur,
        },
        pins: Pins {
            hsync: s.pins.hsync,
            vsync: s.pins.vsync,
            clock: s.pins.clock,
        },
        frame,
        syncs: Syncs {
            hsync: s.syncs.hsync,
            vsync: s.syncs.vsync,
        },
        rate: s.rate,
        partial: Partial {
            count: s.partial.count,
            bits: s.partial.bits,
        },
        waiting,
    }
}

// The state with another place in the open frame; field by field, as by `apart`.
#[tactic(auto, unfolding(rules::specs::State::with_frame))]
pub fn with_scan(taken: bool, f: Scan, s: Capture) -> Capture
    ensures { result ≡ state.with_frame (Open taken f) s }
{
    let s = apart(s);
    let registers = s.registers;
    let pins = s.pins;
    let syncs = s.syncs;
    let rate = s.rate;
    let partial = Partial {
        count: s.partial.count,
        bits: s.partial.bits,
    };
    let waiting = s.waiting;
    Capture {
        registers,
        pins,
        frame: Frame::Open(taken, f),
        syncs,
        rate,
        partial,
        waiting,
    }
}

// Rule 8: the datum joins the partial word, which is then partial still, or full.
#[tactic(auto, unfolding(rules::specs::Capture::pack, rules::specs::Capture::packed_bits, rules::specs::Capture::no_word, rules::specs::State::with_partial))]
pub fn pack(mut s: Capture, datum: u32) -> Captured
    requires { Joins (edm s.registers.cr) s.partial.count s.partial.bits datum }
    ensures { capture_answers.captured result ≡ capture_rules.pack s datum }
{
    let edm = control::edm(s.registers.cr);
    let bits = joined(edm, s.partial.count, s.partial.bits, datum);
    let count = s.partial.count + 1;
    if count < per_word(edm) {
        s.partial = Partial { count, bits };
        return Captured {
            state: s,
            word: None,
        };
    }
    s.partial = Partial { count: 0, bits: 0 };
    Captured {
        state: s,
        word: Some(bits),
    }
}

// Rules 6 to 8 at a pixel of an open frame, taken or not: both as `Frame::Open` and the definitions have them, so that no struct of the two is put together at each pixel.
#[tactic(auto, unfolding(rules::specs::Capture::pixel, rules::specs::Capture::no_word, rules::specs::State::with_frame))]
fn pixel(s: Capture, taken: bool, f: Scan, datum: u32) -> Captured
    requires lines_bound { (f.lines + 1 < 2 ^ 32) × (f.pixels + 1 < 2 ^ 32) }
    requires joins { Joins (edm s.registers.cr) s.partial.count s.partial.bits datum }
    ensures { capture_answers.captured result ≡ capture_rules.pixel s taken f datum }
{
    let s = apart(s);
    let next = pixels::next_pixel(s, f);
    let placed = with_scan(taken, next, s);
    if pixels::captured(s, taken, next) {
        return pack(placed, datum);
    }
    Captured {
        state: placed,
        word: None,
    }
}

// Rule 6 where neither sync blanks: in an open frame the edge carries a pixel.
#[tactic(auto, unfolding(rules::specs::Capture::pixel_in, rules::specs::Capture::no_word))]
fn pixel_in(frame: Frame, s: Capture, datum: u32) -> Captured
    requires frame_bound { (lines frame + 1 < 2 ^ 32) × (pixels frame + 1 < 2 ^ 32) }
    requires joins { Joins (edm s.registers.cr) s.partial.count s.partial.bits datum }
    ensures { capture_answers.captured result ≡ capture_rules.pixel_in frame s state.not_blanking datum }
{
    match frame {
        Frame::Closed => Captured {
            state: s,
            word: None,
        },
        Frame::Open(taken, f) => pixel(s, taken, f, datum),
    }
}

// Rules 3 to 8 at a working edge at which neither sync blanks: no flag rises, no frame ends and no word is padded. The syncs are set one by one, here and below, as the
// compiler keeps each field of the state by itself (docs/SPEED.md).
#[tactic(auto, using(crate::proofs::Laws::plain_edge, crate::proofs::Laws::short_period), unfolding(rules::specs::State::with_syncs))]
fn plain_edge(s: Capture, datum: u32) -> Captured
    requires { CaptureOk capture_answers.most_lines s }
    ensures { capture_answers.captured result ≡ unpadded_rules.unpadded_edge s state.not_blanking datum }
{
    let now = Syncs {
        hsync: false,
        vsync: false,
    };
    let started = frame::frame_start(s, now);
    let mut c = pixel_in(started.frame, started, datum);
    c.state.syncs.hsync = false;
    c.state.syncs.vsync = false;
    c
}

// Rules 3 to 5 at a working edge at which a sync blanks: it carries no pixel.
#[tactic(auto, unfolding(rules::specs::Capture::no_word, rules::specs::State::with_syncs))]
fn blanked_edge(s: Capture, now: Syncs) -> Captured
    requires { CaptureOk capture_answers.most_lines s }
    ensures { capture_answers.captured result ≡ capture_rules.no_word (state.with_syncs now (capture_rules.frame_start (unpadded_rules.unpadded_end (capture_rules.sync_flags s now) now) now)) }
{
    let flagged = syncs::sync_flags(s, now);
    let ended = frame::unpadded_end(flagged, now);
    let mut state = frame::frame_start(ended, now);
    state.syncs.hsync = now.hsync;
    state.syncs.vsync = now.vsync;
    Captured { state, word: None }
}

// Rule 2: the sample's levels are remembered.
#[tactic(auto, unfolding(rules::specs::Capture::remember_pins, rules::specs::State::with_pins))]
pub fn remember_pins(mut s: Capture, w: u32) -> Capture
    ensures { result ≡ capture_rules.remember_pins w s }
{
    let hsync = hsync_pin(w);
    let vsync = vsync_pin(w);
    let clock = clock_pin(w);
    s.pins.hsync = hsync;
    s.pins.vsync = vsync;
    s.pins.clock = clock;
    s
}

// Rules 2 to 8 of a sample that pads no word (W4), where FRAME rises by itself. Lines and pixels can be counted further by one.
#[tactic(auto, using(crate::proofs::Laws::same_blanking, crate::proofs::Laws::edge_blanked, crate::proofs::Laws::neither), unfolding(rules::specs::Unpadded::unpadded_sample, rules::specs::Capture::no_word))]
pub fn unpadded_sample(s: Capture, w: u32) -> Captured
    requires { CaptureOk capture_answers.most_lines s }
    ensures { capture_answers.captured result ≡ unpadded_rules.unpadded_sample s w }
{
    let s = apart(s);
    let seen = remember_pins(s, w);
    if syncs::goes_on(s, w) {
        let now = syncs::blanking(seen, w);
        if syncs::any_blanks(now) {
            return blanked_edge(seen, now);
        }
        return plain_edge(seen, pixel_data(w));
    }
    Captured {
        state: seen,
        word: None,
    }
}

// Rule 4, W4: with JPEG 1 a taken frame has a partial word to pad.
#[tactic(auto, using(packing::proofs::Zeros::zero_filled_bits), unfolding(rules::specs::Capture::padded))]
fn has_partial(frame: Frame, s: Capture) -> bool
    ensures { capture_rules.padded frame s ≡ cond result (Some s.partial.bits) None }
{
    matches!(frame, Frame::Open(true, _)) && control::jpeg(s.registers.cr) && s.partial.count > 0
}

// Rule 4, W4: the sample ends a frame and pads its partial word.
#[tactic(auto, unfolding(rules::specs::Capture::padded_at, rules::specs::Capture::frame_pads))]
pub fn pads(s: Capture, w: u32) -> bool
    ensures { capture_rules.padded_at s w ≡ cond result (Some s.partial.bits) None }
{
    syncs::goes_on(s, w) && syncs::blanking(s, w).vsync && has_partial(s.frame, s)
}

// Rules 2 to 5 of a sample that pads a word: no pixel is there, and FRAME is due.
#[tactic(auto, using(crate::proofs::Laws::same_blanking), unfolding(crate::specs::Answers::ended, rules::specs::State::with_syncs))]
pub fn padded_sample(s: Capture, w: u32) -> Capture
    requires { CaptureOk capture_answers.most_lines s }
    ensures { result ≡ capture_answers.ended s w }
{
    let s = apart(s);
    let seen = remember_pins(s, w);
    let now = syncs::blanking(seen, w);
    let flagged = syncs::sync_flags(seen, now);
    let ended = frame::frame_closes(flagged, now);
    let mut state = frame::frame_start(ended, now);
    state.syncs.hsync = now.hsync;
    state.syncs.vsync = now.vsync;
    state
}
