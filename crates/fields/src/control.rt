// The fields of CR.
ghost use Rattle.std.specs.Prelude.{◌≡◌};
ghost use Rattle.registers.specs.Control as control_fields;

use bits::{bit, field};

pub fn capture(cr: u32) -> bool
    ensures { result ≡ control_fields.capture cr }
{
    bit::<0>(cr)
}

pub fn snapshot(cr: u32) -> bool
    ensures { result ≡ control_fields.snapshot cr }
{
    bit::<1>(cr)
}

pub fn crop(cr: u32) -> bool
    ensures { result ≡ control_fields.crop cr }
{
    bit::<2>(cr)
}

pub fn jpeg(cr: u32) -> bool
    ensures { result ≡ control_fields.jpeg cr }
{
    bit::<3>(cr)
}

pub fn embedded(cr: u32) -> bool
    ensures { result ≡ control_fields.embedded cr }
{
    bit::<4>(cr)
}

pub fn pckpol(cr: u32) -> bool
    ensures { result ≡ control_fields.pckpol cr }
{
    bit::<5>(cr)
}

pub fn hspol(cr: u32) -> bool
    ensures { result ≡ control_fields.hspol cr }
{
    bit::<6>(cr)
}

pub fn vspol(cr: u32) -> bool
    ensures { result ≡ control_fields.vspol cr }
{
    bit::<7>(cr)
}

pub fn fcrc(cr: u32) -> u32
    ensures { result ≡ control_fields.fcrc cr }
{
    field::<9, 8>(cr)
}

pub fn edm(cr: u32) -> u32
    ensures { result ≡ control_fields.edm cr }
{
    field::<11, 10>(cr)
}

pub fn enable(cr: u32) -> bool
    ensures { result ≡ control_fields.enable cr }
{
    bit::<14>(cr)
}

// W4: JPEG with an EDM other than 0, or with CROP.
#[tactic(auto, unfolding(registers::specs::Control::unsupported_jpeg))]
fn unsupported_jpeg(cr: u32) -> bool
    ensures { result ≡ control_fields.unsupported_jpeg cr }
{
    jpeg(cr) && (edm(cr) != 0 || crop(cr))
}

// W6: ESS with an EDM other than 0, or with JPEG.
#[tactic(auto, unfolding(registers::specs::Control::unsupported_codes))]
fn unsupported_codes(cr: u32) -> bool
    ensures { result ≡ control_fields.unsupported_codes cr }
{
    embedded(cr) && (edm(cr) != 0 || jpeg(cr))
}

// Whether the value is one that CR refuses: JPEG otherwise than with EDM 0 and CROP 0, ESS otherwise than with EDM 0 and JPEG 0, FCRC 3, or CAPTURE without ENABLE.
#[tactic(auto, unfolding(registers::specs::Control::unsupported))]
pub fn unsupported(cr: u32) -> bool
    ensures { result ≡ control_fields.unsupported cr }
{
    unsupported_jpeg(cr) || unsupported_codes(cr) || fcrc(cr) == 3 || (capture(cr) && !enable(cr))
}
