// A board as an image of 67 words of 32 bits, for programs in other languages, and back: the device's 58 (crate `device_words`), and nine for the buffer mode (W2). The layout is that of
// include/dcmi.h; each board has one image, and an image that encodes no board is told from those that do.
#![tactic(auto)]

ghost use Rattle.std.specs.Prelude.{◌≡◌, drop, take};
ghost use Rattle.image_rules.specs.Image.{image_words};
ghost use Rattle.image_rules.specs.BoardImage as board_image;

use board_rules::{Board, Mode};
use buffers::{Buffer, Content, Turns};
use device_words::{WORDS, put};

// How many words there are.
pub const BOARD_WORDS: usize = WORDS + 9;

// The numbers are those of include/dcmi.h, whatever the order of the variants: so each is written out, and none is made by `as`. The types are of the crates below: so these are
// functions, and no `From` or `TryFrom`.
fn buffer_word(u: Buffer) -> u32
    ensures { result ≡ board_image.buffer_word u }
{
    match u {
        Buffer::A => 0,
        Buffer::B => 1,
    }
}

fn content_word(c: Content) -> u32
    ensures { result ≡ board_image.content_word c }
{
    match c {
        Content::Nothing => 0,
        Content::Landing => 1,
        Content::Complete => 2,
    }
}

// The words of the mode.
fn mode_words(m: Mode) -> [u32; 9]
    ensures { result ≡ board_image.mode_words m }
{
    match m {
        Mode::One => [0; 9],
        Mode::Two(t) => [
            1,
            t.place,
            t.in_b,
            t.opening,
            buffer_word(t.turn),
            u32::from(t.begun),
            content_word(t.a),
            content_word(t.b),
            buffer_word(t.latest),
        ],
    }
}

// The words of a board.
pub fn image_of(b: Board) -> [u32; BOARD_WORDS]
    ensures { result ≡ board_image.image_of b }
{
    let mut words = [0; BOARD_WORDS];
    put(&mut words, 0, &device_words::image_of(b.device));
    put(&mut words, WORDS, &mode_words(b.mode));
    words
}

// Whether nine words encode a mode: mode one has only zeros; in mode two buffers and `begun` are 0 or 1, what is known of the frames is at most 2.
#[tactic(auto, unfolding(image_rules::specs::BoardImage::mode_encodes, image_rules::specs::BoardImage::zeros_encode, image_rules::specs::BoardImage::turns_encode))]
fn mode_encodes(words: [u32; 9]) -> bool
    ensures { result ≡ board_image.mode_encodes words }
{
    matches!(
        words,
        [0, 0, 0, 0, 0, 0, 0, 0, 0] | [1, _, _, _, 0..=1, 0..=1, 0..=2, 0..=2, 0..=1]
    )
}

// The words of the device, and those of the mode. One function of any size would take the place too, and a bound on both: no plainer.
fn device_part(w: [u32; BOARD_WORDS]) -> [u32; WORDS]
    ensures { result ≡ take image_words w }
{
    let mut device = [0; WORDS];
    put(&mut device, 0, &w[..WORDS]);
    device
}

fn mode_part(w: [u32; BOARD_WORDS]) -> [u32; 9]
    ensures { result ≡ drop image_words w }
{
    let mut mode = [0; 9];
    put(&mut mode, 0, &w[WORDS..]);
    mode
}

// Whether an image encodes a board.
pub fn encodes(w: [u32; BOARD_WORDS]) -> bool
    ensures { result ≡ board_image.encodes w }
{
    device_words::encodes(device_part(w)) && mode_encodes(mode_part(w))
}

#[tactic(auto, unfolding(image_rules::specs::BoardImage::buffer_of))]
fn buffer_of(x: u32) -> Buffer
    ensures { result ≡ board_image.buffer_of x }
{
    match x {
        0 => Buffer::A,
        _ => Buffer::B,
    }
}

#[tactic(auto, unfolding(image_rules::specs::BoardImage::content_of))]
fn content_of(x: u32) -> Content
    ensures { result ≡ board_image.content_of x }
{
    match x {
        0 => Content::Nothing,
        1 => Content::Landing,
        _ => Content::Complete,
    }
}

fn turns_of(words: [u32; 9]) -> Turns
    ensures { result ≡ board_image.turns_of words }
{
    let [_, place, in_b, opening, turn, begun, a, b, latest] = words;
    Turns {
        place,
        in_b,
        opening,
        turn: buffer_of(turn),
        begun: begun == 1,
        a: content_of(a),
        b: content_of(b),
        latest: buffer_of(latest),
    }
}

#[tactic(auto, unfolding(image_rules::specs::BoardImage::mode_of))]
fn mode_of(words: [u32; 9]) -> Mode
    ensures { result ≡ board_image.mode_of words }
{
    match words {
        [0, ..] => Mode::One,
        _ => Mode::Two(turns_of(words)),
    }
}

// The board of an image.
pub fn board_of(w: [u32; BOARD_WORDS]) -> Board
    ensures { result ≡ board_image.board_of w }
{
    Board {
        device: device_words::device_of(device_part(w)),
        mode: mode_of(mode_part(w)),
    }
}
