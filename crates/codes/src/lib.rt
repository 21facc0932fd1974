// W6, codes in the data: how many bytes wait that may begin a code, and what a code means. It knows of no device. Each function answers for
// every number, and its contract gives the answer by a definition of specs/.
#![tactic(auto)]

ghost use Rattle.std.specs.Prelude.{◌≡◌, eqb};
ghost use Rattle.codes.specs.Bytes as code_bytes;
ghost use Rattle.codes.specs.Meaning as code_meanings;

use fields::delimiters::{fec, feu, fsc, fsu, lec, leu, lsc, lsu};

// The bytes that wait: none, FF, FF 00, or FF 00 00.
#[derive(Clone, Copy, Debug, PartialEq, Eq)]
pub enum Waiting {
    Zero,
    One,
    Two,
    Three,
}

// What a code means; one that matches no delimiter means nothing.
#[derive(Clone, Copy, Debug, PartialEq, Eq)]
pub enum Meaning {
    FrameEnd,
    FrameStart,
    LineEnd,
    LineStart,
    Unmatched,
}

// Whether a byte is FF, with which a code begins.
pub fn begins_code(byte: u32) -> bool
    ensures { result ≡ eqb byte 0xFF }
{
    byte == 0xFF
}

// How many bytes wait.
pub fn waiting_count(waiting: Waiting) -> u32
    ensures { result ≡ code_bytes.waiting_count waiting }
{
    waiting as u32
}

// Whether a byte that comes now is the XY of a code.
pub fn is_code(waiting: Waiting) -> bool
    ensures { result ≡ code_bytes.is_code waiting }
{
    waiting == Waiting::Three
}

// What waits after a byte. The XY of a code begins none.
#[tactic(auto, unfolding(crate::specs::Bytes::waiting_after))]
pub fn waiting_after(waiting: Waiting, byte: u32) -> Waiting
    ensures { result ≡ code_bytes.waiting_after waiting byte }
{
    match (waiting, byte) {
        (Waiting::Three, _) => Waiting::Zero,
        (Waiting::One, 0) => Waiting::Two,
        (Waiting::Two, 0) => Waiting::Three,
        _ if begins_code(byte) => Waiting::One,
        _ => Waiting::Zero,
    }
}

// Whether XY and a delimiter agree on the unmask bits that are 1.
#[tactic(auto, unfolding(crate::specs::Meaning::agrees))]
fn agrees(unmask: u32, delimiter: u32, xy: u32) -> bool
    ensures { result ≡ code_meanings.agrees unmask delimiter xy }
{
    unmask & xy == unmask & delimiter
}

// Whether FSC is 0xFF: then frames start with a line start.
#[tactic(auto, unfolding(crate::specs::Meaning::by_line_starts))]
pub fn by_line_starts(escr: u32) -> bool
    ensures { result ≡ code_meanings.by_line_starts escr }
{
    fsc(escr) == 0xFF
}

// ESCR and ESUR: the delimiters, and which of their bits are compared.
#[derive(Clone, Copy, Debug, PartialEq, Eq)]
struct Delimiters {
    escr: u32,
    esur: u32,
}

impl Delimiters {
    // Whether XY matches FSC; 0xFF is matched by nothing.
    #[tactic(auto, unfolding(crate::specs::Meaning::starts_frame))]
    fn starts_frame(self, xy: u32) -> bool
        ensures { result ≡ code_meanings.starts_frame self.escr self.esur xy }
    {
        !by_line_starts(self.escr) && agrees(fsu(self.esur), fsc(self.escr), xy)
    }

    // Whether XY matches LEC.
    #[tactic(auto, unfolding(crate::specs::Meaning::ends_line))]
    fn ends_line(self, xy: u32) -> bool
        ensures { result ≡ code_meanings.ends_line self.escr self.esur xy }
    {
        agrees(leu(self.esur), lec(self.escr), xy)
    }

    // Whether XY matches LSC.
    #[tactic(auto, unfolding(crate::specs::Meaning::starts_line))]
    fn starts_line(self, xy: u32) -> bool
        ensures { result ≡ code_meanings.starts_line self.escr self.esur xy }
    {
        agrees(lsu(self.esur), lsc(self.escr), xy)
    }

    // Whether XY matches none of FSC, LEC and LSC.
    #[tactic(auto, unfolding(crate::specs::Meaning::unused))]
    fn unused(self, xy: u32) -> bool
        ensures { result ≡ code_meanings.unused self.escr self.esur xy }
    {
        !(self.starts_frame(xy) || self.ends_line(xy) || self.starts_line(xy))
    }

    // Whether XY matches FEC; 0xFF is matched by just the unused codes.
    #[tactic(auto, unfolding(crate::specs::Meaning::ends_frame))]
    fn ends_frame(self, xy: u32) -> bool
        ensures { result ≡ code_meanings.ends_frame self.escr self.esur xy }
    {
        match fec(self.escr) {
            0xFF => self.unused(xy),
            delimiter => agrees(feu(self.esur), delimiter, xy),
        }
    }
}

// What a code means.
#[tactic(auto, unfolding(crate::specs::Meaning::meaning))]
pub fn meaning_of(escr: u32, esur: u32, xy: u32) -> Meaning
    ensures { result ≡ code_meanings.meaning escr esur xy }
{
    let delimiters = Delimiters { escr, esur };
    if delimiters.ends_frame(xy) {
        Meaning::FrameEnd
    } else if delimiters.starts_frame(xy) {
        Meaning::FrameStart
    } else if delimiters.ends_line(xy) {
        Meaning::LineEnd
    } else if delimiters.starts_line(xy) {
        Meaning::LineStart
    } else {
        Meaning::Unmatched
    }
}
