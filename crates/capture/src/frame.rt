// Rules 4 and 5: frame end and frame start.
ghost use Rattle.std.specs.Prelude.{cond, ◌≡◌, ◌+◌, ◌<◌, ◌^◌};
ghost use Rattle.rules.specs.State as state;
ghost use Rattle.rules.specs.CropWindow as crop_window;
ghost use Rattle.rules.specs.Capture as capture_rules;
ghost use Rattle.rules.specs.Unpadded as unpadded_rules;

use crate::apart;
use crate::syncs::{FRAME, raise};
use fields::{control, window};
use rules::{Capture, Frame, Partial, Scan, Syncs};

// Whether a frame is open.
pub fn is_open(frame: Frame) -> bool
    ensures { result ≡ state.is_open frame }
{
    matches!(frame, Frame::Open(..))
}

// CAPTURE becomes 0.
#[tactic(auto, unfolding(rules::specs::State::clear_capture, rules::specs::State::with_registers, rules::specs::State::with_cr, bits::specs::Bits::lowered))]
pub fn clear_capture(mut s: Capture) -> Capture
    ensures { result ≡ state.clear_capture s }
{
    s.registers.cr &= !1;
    s
}

// The frame closed, and with it the partial word dropped; field by field, as by `apart`.
#[tactic(auto, unfolding(rules::specs::State::close_frame, rules::specs::State::with_partial, rules::specs::State::with_frame))]
pub fn close_frame(s: Capture) -> Capture
    ensures { result ≡ state.close_frame s }
{
    let s = apart(s);
    let registers = s.registers;
    let pins = s.pins;
    let syncs = s.syncs;
    let rate = s.rate;
    let waiting = s.waiting;
    Capture {
        registers,
        pins,
        syncs,
        frame: Frame::Closed,
        rate,
        partial: Partial { count: 0, bits: 0 },
        waiting,
    }
}

// Rule 4, W1: the lines of a frame up to the crop window's last.
fn lines_to_window_end(s: Capture) -> u32
    ensures { result ≡ crop_window.lines_to_window_end s.registers }
{
    let number_of_lines = window::vline(s.registers.cwsize) + 1;
    window::vst(s.registers.cwstrt) + number_of_lines
}

// Rule 4, W1: that line has ended.
#[tactic(auto, unfolding(rules::specs::Capture::window_ended))]
fn window_ended(s: Capture, f: Scan) -> bool
    ensures { result ≡ capture_rules.window_ended s f }
{
    let lines = lines_to_window_end(s);
    lines < f.lines || lines == f.lines && s.syncs.hsync
}

// Rule 4, W1: that line has begun, and HSYNC blanks.
#[tactic(auto, unfolding(rules::specs::Capture::hsync_after_window))]
fn hsync_after_window(s: Capture, f: Scan, now: Syncs) -> bool
    ensures { result ≡ capture_rules.hsync_after_window s f now }
{
    lines_to_window_end(s) <= f.lines && now.hsync
}

// Rule 4: when FRAME rises in a taken frame. With CROP 0 at frame end, with CROP 1 (W1) at the end of the window's last line, or at frame end if that line never ended.
#[tactic(auto, unfolding(rules::specs::Capture::frame_rises))]
pub fn frame_rises(s: Capture, f: Scan, now: Syncs) -> bool
    ensures { result ≡ capture_rules.frame_rises s f now }
{
    if control::crop(s.registers.cr) {
        return !window_ended(s, f) && (hsync_after_window(s, f, now) || now.vsync);
    }
    now.vsync
}

// Rule 4: FRAME is due, in a taken frame.
#[tactic(auto, unfolding(rules::specs::Capture::frame_due))]
pub fn frame_due(frame: Frame, s: Capture, now: Syncs) -> bool
    ensures { result ≡ capture_rules.frame_due frame s now }
{
    matches!(frame, Frame::Open(true, f) if frame_rises(s, f, now))
}

// Rule 4: FRAME, where it is due.
fn frame_flag(frame: Frame, s: Capture, now: Syncs) -> Capture
    ensures { result ≡ cond (capture_rules.frame_due frame s now) (state.raise 0 s) s }
{
    if frame_due(frame, s, now) {
        return raise::<FRAME>(s);
    }
    s
}

// Rule 4: the end of a frame; of a taken one CAPTURE becomes 0 with CM 1.
#[tactic(auto, unfolding(rules::specs::Capture::end_of))]
fn end_of(frame: Frame, s: Capture) -> Capture
    ensures { result ≡ capture_rules.end_of frame s }
{
    match frame {
        Frame::Closed => s,
        Frame::Open(taken, _) => {
            if taken && control::snapshot(s.registers.cr) {
                return close_frame(clear_capture(s));
            }
            close_frame(s)
        }
    }
}

// Rule 4: an open frame closes when VSYNC blanks.
#[tactic(auto, unfolding(rules::specs::Capture::frame_closes))]
pub fn frame_closes(s: Capture, now: Syncs) -> Capture
    ensures { result ≡ capture_rules.frame_closes s now }
{
    if now.vsync {
        return end_of(s.frame, s);
    }
    s
}

// Rule 4 where no word is padded: FRAME, and then the frame's end.
#[tactic(auto, unfolding(rules::specs::Unpadded::unpadded_end))]
pub fn unpadded_end(s: Capture, now: Syncs) -> Capture
    ensures { result ≡ unpadded_rules.unpadded_end s now }
{
    let flagged = frame_flag(s.frame, s, now);
    frame_closes(flagged, now)
}

// The period of the rate counter.
#[tactic(auto, unfolding(rules::specs::Capture::rate_period))]
pub fn rate_period(cr: u32) -> u32
    ensures { result ≡ capture_rules.rate_period cr }
{
    match control::fcrc(cr) {
        0 => 1,
        1 => 2,
        _ => 4,
    }
}

// Rule 5: the rate counter goes up modulo its period; with CM 1 it stays.
#[tactic(auto, using(laws::proofs::Kept::period_positive), unfolding(rules::specs::Capture::next_rate))]
pub fn next_rate(s: Capture) -> u32
    requires { s.rate + 1 < 2 ^ 32 }
    ensures { result ≡ capture_rules.next_rate s }
{
    if control::snapshot(s.registers.cr) {
        return s.rate;
    }
    (s.rate + 1) % rate_period(s.registers.cr)
}

// The frame that starts; field by field, as by `apart`.
#[tactic(auto, unfolding(rules::specs::Capture::open_frame, rules::specs::State::with_rate, rules::specs::State::with_frame))]
fn open_frame(s: Capture) -> Capture
    requires { s.rate + 1 < 2 ^ 32 }
    ensures { result ≡ capture_rules.open_frame s }
{
    let s = apart(s);
    let registers = s.registers;
    let pins = s.pins;
    let syncs = s.syncs;
    let partial = Partial {
        count: s.partial.count,
        bits: s.partial.bits,
    };
    let waiting = s.waiting;
    let rate = next_rate(s);
    let place = Scan {
        lines: 0,
        pixels: 0,
    };
    let frame = Frame::Open(takes(s), place);
    Capture {
        registers,
        pins,
        syncs,
        frame,
        rate,
        partial,
        waiting,
    }
}

// Rule 5: the frame is taken if CM is 1 or the rate counter is 0.
#[tactic(auto, unfolding(rules::specs::Capture::takes))]
pub fn takes(s: Capture) -> bool
    ensures { result ≡ capture_rules.takes s }
{
    control::snapshot(s.registers.cr) || s.rate == 0
}

// Rule 5: CAPTURE is 1, and VSYNC blanked at the last working edge and does not now.
#[tactic(auto, unfolding(rules::specs::Capture::starts))]
fn starts(s: Capture, now: Syncs) -> bool
    ensures { result ≡ capture_rules.starts s now }
{
    control::capture(s.registers.cr) && s.syncs.vsync && !now.vsync
}

// Rule 5: a frame starts where none is open.
#[tactic(auto, unfolding(rules::specs::Capture::frame_start, rules::specs::Capture::start_of))]
pub fn frame_start(s: Capture, now: Syncs) -> Capture
    requires { s.rate + 1 < 2 ^ 32 }
    ensures { result ≡ capture_rules.frame_start s now }
{
    if !is_open(s.frame) && starts(s, now) {
        return open_frame(s);
    }
    s
}
