// Rule 8's layout: how EDM lays data out in words of 32 bits. It knows of no device. The functions are for the crates of this repository, which call them with an
// EDM of at most 3. That is no type: a public function takes no narrower type than it did, and the definitions, by which the laws speak of every CR, have a number.
#![tactic(auto)]

ghost use Rattle.std.specs.Prelude.{◌≡◌, ◌*◌, ◌≤◌, ◌<◌, ◌^◌};
ghost use Rattle.packing.specs.Packing as packing_rules;

// How many data bits are kept.
#[tactic(auto, unfolding(crate::specs::Packing::width))]
pub fn width(edm: u32) -> u32
    requires { edm ≤ 3 }
    ensures { result ≡ packing_rules.width edm }
{
    8 + 2 * edm
}

// How many data make a word.
#[tactic(auto, unfolding(crate::specs::Packing::per_word))]
pub fn per_word(edm: u32) -> u32
    ensures { result ≡ packing_rules.per_word edm }
{
    if edm == 0 { 4 } else { 2 }
}

// The bits that are kept of a datum. By constants: shifts by numbers that vary, here and in `placed`, cost a sample an instruction more.
#[tactic(auto, unfolding(crate::specs::Packing::width, crate::specs::Packing::kept))]
fn kept(edm: u32, datum: u32) -> u32
    requires { edm ≤ 3 }
    ensures { result ≡ packing_rules.kept edm datum }
{
    match edm {
        0 => datum % 0x100,
        1 => datum % 0x400,
        2 => datum % 0x1000,
        _ => datum % 0x4000,
    }
}

// A datum at its place in the word, behind `count` others: in lanes of 8 bits with EDM 0, of 16 with another. Tests in this order: a match on
// (edm, count) cost a sample with codes two instructions more.
#[tactic(auto, unfolding(crate::specs::Packing::lane, crate::specs::Packing::per_word))]
fn placed(edm: u32, count: u32, datum: u32) -> u32
    requires { (count < packing_rules.per_word edm) × (datum * 2 ^ (packing_rules.lane edm * count) < 2 ^ 32) }
    ensures { result ≡ datum * 2 ^ (packing_rules.lane edm * count) }
{
    if count == 0 {
        datum
    } else if edm != 0 {
        datum * 0x1_0000
    } else if count == 1 {
        datum * 0x100
    } else if count == 2 {
        datum * 0x1_0000
    } else {
        datum * 0x100_0000
    }
}

// The bits of some data of a word, with one datum more above them.
#[tactic(auto, unfolding(crate::specs::Packing::joined))]
pub fn joined(edm: u32, count: u32, bits: u32, datum: u32) -> u32
    requires edm_bound { edm ≤ 3 }
    requires joins { packing_rules.Joins edm count bits datum }
    ensures { result ≡ packing_rules.joined edm count bits datum }
{
    bits + placed(edm, count, kept(edm, datum))
}
