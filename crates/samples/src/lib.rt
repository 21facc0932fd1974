// A sample of the pins: the fields of its 32-bit word; refusal 7, a bit above them; and samples at which VSYNC keeps its level. Each function answers for every number.
#![tactic(auto)]

ghost use Rattle.std.specs.Prelude.{◌≡◌, ◌+◌, drop};
ghost use Rattle.samples.specs.Samples as samples;

use bits::{bit, field};

// The data, bits 13:0.
pub fn pixel_data(w: u32) -> u32
    ensures { result ≡ samples.pixel_data w }
{
    field::<13, 0>(w)
}

// The HSYNC pin, bit 14.
pub fn hsync_pin(w: u32) -> bool
    ensures { result ≡ samples.hsync_pin w }
{
    bit::<14>(w)
}

// The VSYNC pin, bit 15.
pub fn vsync_pin(w: u32) -> bool
    ensures { result ≡ samples.vsync_pin w }
{
    bit::<15>(w)
}

// The pixel clock, bit 16.
pub fn clock_pin(w: u32) -> bool
    ensures { result ≡ samples.clock_pin w }
{
    bit::<16>(w)
}

// The bus grant, bit 17.
pub fn bus_grant(w: u32) -> bool
    ensures { result ≡ samples.bus_grant w }
{
    bit::<17>(w)
}

// Whether a sample has a bit above 17.
#[tactic(auto, unfolding(crate::specs::Samples::bad_sample))]
pub fn bad_sample(w: u32) -> bool
    ensures { result ≡ samples.bad_sample w }
{
    0x4_0000 <= w
}

// Whether one of some samples has. All are tested, so that the compiler takes several at once (docs/SPEED.md).
pub fn any_bad(list: &[u32]) -> bool
    ensures { result ≡ samples.any_bad list.now }
{
    list.iter().fold(false, |any, w| any | bad_sample(*w))
}

// The first sample from `first` on at which VSYNC has another level than at a sample, or the end.
pub fn level_end(list: &[u32], first: usize, like: u32) -> usize
    ensures { result ≡ first + samples.level_run (samples.vsync_pin like) (drop first list.now) }
{
    let level = vsync_pin(like);
    // By index: the answer is a place in the whole list, also where `first` lies behind its end, and with `skip` and `position` that is no plainer.
    for i in first..list.len() {
        if vsync_pin(list[i]) != level {
            return i;
        }
    }
    list.len().max(first)
}
