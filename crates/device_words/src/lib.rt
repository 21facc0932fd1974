// A device as an image of 58 words of 32 bits, for programs in other languages, and back. The layout is that of include/dcmi.h; each device has one
// image, and an image that encodes no device is told from those that do. The types are of the crates below: so these are functions, and no `From` or `TryFrom`.
#![tactic(auto)]

ghost use Rattle.std.specs.Prelude.{◌≡◌, ◌+◌, ◌≤◌, [], ◌∷◌, length, drop};
ghost use Rattle.std.proofs.Math.Seq.{paste};
ghost use Rattle.image_rules.specs.Image as image;

use codes::{Waiting, waiting_count};
use output::{Counts, Output, SLOTS};
use rules::{Capture, Core, Device, Frame, Partial, Pins, Registers, Scan, Syncs};

// How many words there are; the index of the first slot, and that of the first word behind the slots.
pub const WORDS: usize = 26 + SLOTS;

const SLOT: usize = 16;

const BEHIND: usize = 16 + SLOTS;

// The frame, its lines and its pixels.
fn frame_words(f: Frame) -> [u32; 3]
    ensures { result ≡ image.frame_word f ∷ image.lines_word f ∷ image.pixels_word f ∷ [] }
{
    match f {
        Frame::Closed => [0, 0, 0],
        Frame::Open(false, scan) => [1, scan.lines, scan.pixels],
        Frame::Open(true, scan) => [2, scan.lines, scan.pixels],
    }
}

// A part put into words, from an index on. By a loop, and not by `copy_from_slice`, with which `image_of` is a call of its own and `dcmi_sample` takes a quarter more instructions.
pub fn put(words: &mut [u32], at: usize, part: &[u32])
    requires { at + length part.now ≤ length words.old }
    ensures { words.new ≡ paste words.old at part.now (length part.now) }
{
    for (i, word) in part.iter().enumerate() {
        words[at + i] = *word;
    }
}

// The words before the slots.
fn words_before(s: Capture) -> [u32; SLOT]
    ensures { result ≡ image.words_before s }
{
    let registers = s.registers;
    let [frame, lines, pixels] = frame_words(s.frame);
    [
        registers.cr,
        registers.ris,
        registers.ier,
        registers.cwstrt,
        registers.cwsize,
        u32::from(s.pins.hsync),
        u32::from(s.pins.vsync),
        u32::from(s.pins.clock),
        u32::from(s.syncs.hsync),
        u32::from(s.syncs.vsync),
        frame,
        lines,
        pixels,
        s.rate,
        s.partial.count,
        s.partial.bits,
    ]
}

// The words behind the slots.
fn words_behind(s: Core) -> [u32; 10]
    ensures { result ≡ image.words_behind s }
{
    let output = s.output;
    let counts = output.counts;
    let registers = s.capture.registers;
    [
        output.held,
        output.place,
        counts.samples,
        counts.completed,
        counts.landed,
        counts.discarded,
        output.depth,
        registers.escr,
        registers.esur,
        waiting_count(s.capture.waiting),
    ]
}

// The words of a device.
pub fn image_of(d: Device) -> [u32; WORDS]
    ensures { result ≡ image.image_of d }
{
    let mut words = [0; WORDS];
    put(&mut words, 0, &words_before(d.core.capture));
    put(&mut words, BEHIND, &words_behind(d.core));
    put(&mut words, SLOT, &d.slots);
    words
}

// The flags are 0 or 1.
#[tactic(auto, unfolding(image_rules::specs::Image::flags_encode))]
fn flags_encode(a: u32, b: u32, c: u32, d: u32, e: u32) -> bool
    ensures { result ≡ image.flags_encode a b c d e }
{
    a <= 1 && b <= 1 && c <= 1 && d <= 1 && e <= 1
}

// The frame is at most 2, and a closed one has no lines and no pixels. By cases, as the definition: one expression is no plainer.
#[tactic(auto, unfolding(image_rules::specs::Image::frame_encodes))]
fn frame_encodes(frame: u32, lines: u32, pixels: u32) -> bool
    ensures { result ≡ image.frame_encodes frame lines pixels }
{
    match frame {
        0 => lines == 0 && pixels == 0,
        1 | 2 => true,
        _ => false,
    }
}

// Whether an image encodes a device.
pub fn encodes(w: [u32; WORDS]) -> bool
    ensures { result ≡ image.encodes w }
{
    let [
        _,
        _,
        _,
        _,
        _,
        hsync,
        vsync,
        clock,
        hsync_blanked,
        vsync_blanked,
        frame,
        lines,
        pixels,
        ..,
        waiting,
    ] = w;
    flags_encode(hsync, vsync, clock, hsync_blanked, vsync_blanked)
        && frame_encodes(frame, lines, pixels)
        && waiting <= 3
}

#[tactic(auto, unfolding(image_rules::specs::Image::frame_of))]
fn frame_of(frame: u32, lines: u32, pixels: u32) -> Frame
    ensures { result ≡ image.frame_of frame lines pixels }
{
    match frame {
        0 => Frame::Closed,
        _ => Frame::Open(frame == 2, Scan { lines, pixels }),
    }
}

#[tactic(auto, unfolding(image_rules::specs::Image::waiting_of))]
fn waiting_of(count: u32) -> Waiting
    ensures { result ≡ image.waiting_of count }
{
    match count {
        0 => Waiting::Zero,
        1 => Waiting::One,
        2 => Waiting::Two,
        _ => Waiting::Three,
    }
}

// What the words before the slots say of the capture state, and the last three behind them.
fn capture_of(w: [u32; WORDS]) -> Capture
    ensures { result ≡ image.capture_of w (drop image.behind w) }
{
    let [
        cr,
        ris,
        ier,
        cwstrt,
        cwsize,
        hsync,
        vsync,
        clock,
        hsync_blanked,
        vsync_blanked,
        frame,
        lines,
        pixels,
        rate,
        count,
        bits,
        ..,
        escr,
        esur,
        waiting,
    ] = w;
    Capture {
        registers: Registers {
            cr,
            ris,
            ier,
            cwstrt,
            cwsize,
            escr,
            esur,
        },
        pins: Pins {
            hsync: hsync == 1,
            vsync: vsync == 1,
            clock: clock == 1,
        },
        syncs: Syncs {
            hsync: hsync_blanked == 1,
            vsync: vsync_blanked == 1,
        },
        frame: frame_of(frame, lines, pixels),
        rate,
        partial: Partial { count, bits },
        waiting: waiting_of(waiting),
    }
}

// What the words behind the slots say of the output.
fn output_of(w: [u32; WORDS]) -> Output
    ensures { result ≡ image.output_of (drop image.behind w) }
{
    let [
        ..,
        held,
        place,
        samples,
        completed,
        landed,
        discarded,
        depth,
        _,
        _,
        _,
    ] = w;
    Output {
        held,
        place,
        depth,
        counts: Counts {
            samples,
            completed,
            landed,
            discarded,
        },
    }
}

// The device of an image.
pub fn device_of(w: [u32; WORDS]) -> Device
    ensures { result ≡ image.device_of w }
{
    let core = Core {
        capture: capture_of(w),
        output: output_of(w),
    };
    let mut slots = [0; SLOTS];
    put(&mut slots, 0, &w[SLOT..BEHIND]);
    Device { core, slots }
}
