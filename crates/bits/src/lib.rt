// Bits, fields and ranges of bits of a number and lists of tests, as definitions (specs/), and their laws (proofs/); a bit and a field also in code, by the
// constants that say which. Each function answers for every number.
#![tactic(auto)]

ghost use Rattle.std.specs.Prelude.{◌≡◌};
ghost use Rattle.bits.specs.Bits as bits;

// Bit I; there is none above 31.
#[tactic(auto, using(crate::proofs::Words::none_above))]
pub fn bit<const I: u32>(x: u32) -> bool
    ensures { result ≡ bits.bit I x }
{
    I < 32 && (x >> I) % 2 == 1
}

// Bits HIGH:LOW, as a number.
pub fn field<const HIGH: u32, const LOW: u32>(x: u32) -> u32
    ensures { result ≡ bits.field HIGH LOW x }
{
    if HIGH < LOW || 31 < LOW {
        0
    } else if HIGH - LOW < 31 {
        (x >> LOW) % (2 << (HIGH - LOW))
    } else {
        x >> LOW
    }
}
