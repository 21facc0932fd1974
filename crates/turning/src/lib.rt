// W2, two frame buffers in turn, in code (crate `buffers` has the definitions). The functions are for the crates of this repository; each states its result as an equation with its
// definition. They are no methods, since the crate of the types has no code.
// No type holds `held < 32`: the number held is a field of `Output`, which in a malformed device may be any, and refusal 1 and the laws speak of such devices.
#![tactic(auto)]

ghost use Rattle.std.specs.Prelude.{cond, ◌≡◌, ◌+◌, ◌<◌, ◌^◌};
ghost use Rattle.buffers.specs.Turns as turn_rules;
ghost use Rattle.buffers.specs.declared.Content.TheVariants.{Landing};

use buffers::{Buffer, Content, Turns};

// The other buffer.
pub fn other(u: Buffer) -> Buffer
    ensures { result ≡ turn_rules.other u }
{
    match u {
        Buffer::A => Buffer::B,
        Buffer::B => Buffer::A,
    }
}

fn is_b(u: Buffer) -> bool
    ensures { result ≡ turn_rules.is_b u }
{
    u == Buffer::B
}

// Where the mode has just been set to two.
pub fn fresh_turns() -> Turns
    ensures { result ≡ turn_rules.fresh_turns }
{
    Turns {
        place: 0,
        in_b: 0,
        opening: 0,
        turn: Buffer::B,
        begun: false,
        a: Content::Nothing,
        b: Content::Nothing,
        latest: Buffer::A,
    }
}

fn with_turn(turn: Buffer, begun: bool, t: Turns) -> Turns
    ensures { result ≡ turn_rules.with_turn turn begun t }
{
    Turns { turn, begun, ..t }
}

pub fn with_tags(in_b: u32, opening: u32, t: Turns) -> Turns
    ensures { result ≡ turn_rules.with_tags in_b opening t }
{
    Turns { in_b, opening, ..t }
}

// Rule 9 is reached: a frame's first word switches to the other buffer.
pub fn first_word(t: Turns) -> Turns
    ensures { result ≡ turn_rules.first_word t }
{
    if t.begun {
        t
    } else {
        with_turn(other(t.turn), true, t)
    }
}

// The held words are discarded, and the open frame is gone.
pub fn discarded(t: Turns) -> Turns
    ensures { result ≡ turn_rules.discarded t }
{
    Turns {
        in_b: 0,
        opening: 0,
        begun: false,
        ..t
    }
}

pub fn word_lost(t: Turns) -> Turns
    ensures { result ≡ turn_rules.word_lost t }
{
    discarded(first_word(t))
}

// Of the oldest held word: its buffer, and whether it opens a frame.
pub fn oldest_buffer(t: Turns) -> Buffer
    ensures { result ≡ turn_rules.oldest_buffer t }
{
    if t.in_b % 2 == 1 {
        Buffer::B
    } else {
        Buffer::A
    }
}

pub fn oldest_opens(t: Turns) -> bool
    ensures { result ≡ turn_rules.oldest_opens t }
{
    t.opening % 2 == 1
}

// The bit of a held word that has so many before it.
fn bit_behind(held: u32) -> u32
    requires { held < 32 }
    ensures { result ≡ 2 ^ held }
{
    1u32 << held
}

// A number with that bit too, where it goes to B, or opens a frame.
fn marked(mark: bool, held: u32, x: u32) -> u32
    requires { (held < 32) × (x + 2 ^ held < 2 ^ 32) }
    ensures { result ≡ cond mark (x + 2 ^ held) x }
{
    if mark { x + bit_behind(held) } else { x }
}

// A word is held, behind so many others. For the crates above, which hold at most 32.
pub fn word_held(held: u32, t: Turns) -> Turns
    requires { (held < 32) × (t.in_b + 2 ^ held < 2 ^ 32) × (t.opening + 2 ^ held < 2 ^ 32) }
    ensures { result ≡ turn_rules.word_held held t }
{
    let u = first_word(t);
    let in_b = marked(is_b(u.turn), held, u.in_b);
    let opening = marked(!t.begun, held, u.opening);
    with_tags(in_b, opening, u)
}

// What is known of the frame in a buffer.
fn known(u: Buffer, t: Turns) -> Content
    ensures { result ≡ turn_rules.content u t }
{
    match u {
        Buffer::A => t.a,
        Buffer::B => t.b,
    }
}

pub fn with_content(u: Buffer, c: Content, t: Turns) -> Turns
    ensures { result ≡ turn_rules.with_content u c t }
{
    match u {
        Buffer::A => Turns { a: c, ..t },
        Buffer::B => Turns { b: c, ..t },
    }
}

fn with_latest(latest: Buffer, t: Turns) -> Turns
    ensures { result ≡ turn_rules.with_latest latest t }
{
    Turns { latest, ..t }
}

fn is_landing(c: Content) -> bool
    ensures { result ≡ turn_rules.is_landing c }
{
    c == Content::Landing
}

// The frame in a buffer has ended, and no word of it is held.
fn frame_over(u: Buffer, t: Turns) -> Turns
    ensures { result ≡ turn_rules.frame_over u t }
{
    if is_landing(known(u, t)) {
        with_latest(u, with_content(u, Content::Complete, t))
    } else {
        t
    }
}

// The word that landed was the last of a frame that has ended.
fn last_of_frame(held: u32, t: Turns) -> bool
    ensures { result ≡ turn_rules.last_of_frame held t }
{
    if 0 < held { oldest_opens(t) } else { !t.begun }
}

fn opened(opens: bool, u: Buffer, t: Turns) -> Turns
    ensures { result ≡ cond opens (turn_rules.with_content u Landing t) t }
{
    if opens {
        with_content(u, Content::Landing, t)
    } else {
        t
    }
}

// The oldest of so many held words has landed.
pub fn word_landed(held: u32, t: Turns) -> Turns
    requires { 0 < held }
    ensures { result ≡ turn_rules.word_landed held t }
{
    let u = oldest_buffer(t);
    let l = with_tags(t.in_b / 2, t.opening / 2, opened(oldest_opens(t), u, t));
    if last_of_frame(held - 1, l) {
        frame_over(u, l)
    } else {
        l
    }
}

// Rule 4 ends the open frame, with so many words held.
pub fn frame_ended(held: u32, t: Turns) -> Turns
    ensures { result ≡ turn_rules.frame_ended held t }
{
    let after = if t.begun && held == 0 {
        frame_over(t.turn, t)
    } else {
        t
    };
    with_turn(t.turn, false, after)
}

// Re-arming.
pub fn rearmed(t: Turns) -> Turns
    ensures { result ≡ turn_rules.rearmed t }
{
    Turns {
        place: 0,
        a: Content::Nothing,
        b: Content::Nothing,
        ..t
    }
}

// The place at which the oldest held word lands, A's next place being given.
pub fn oldest_place(place_a: u32, t: Turns) -> u32
    ensures { result ≡ turn_rules.oldest_place place_a t }
{
    if oldest_opens(t) {
        return 0;
    }
    match oldest_buffer(t) {
        Buffer::A => place_a,
        Buffer::B => t.place,
    }
}

fn is_complete(c: Content) -> bool
    ensures { result ≡ turn_rules.is_complete c }
{
    c == Content::Complete
}

// The frame that became complete last, or else the other.
pub fn latest_complete(t: Turns) -> Option<Buffer>
    ensures { result ≡ turn_rules.latest_complete t }
{
    let last = t.latest;
    if is_complete(known(last, t)) {
        return Some(last);
    }
    let before = other(last);
    if is_complete(known(before, t)) {
        return Some(before);
    }
    None
}
