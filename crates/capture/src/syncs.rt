// Rules 2 and 3: the working edge, blanking, and the flags VSYNC and LINE.
ghost use Rattle.std.specs.Prelude.{◌&&◌, ◌≡◌, ◌<◌};
ghost use Rattle.std.specs.Bool.{beq};
ghost use Rattle.rules.specs.State as state;
ghost use Rattle.rules.specs.Capture as capture_rules;

use fields::control;
use rules::{Capture, Syncs};
use samples::{clock_pin, hsync_pin, vsync_pin};

// Rule 2: the sample goes on. ENABLE is 1, and the clock fell (PCKPOL 0) or rose (PCKPOL 1) since the last sample.
// By guard clauses: with the edge computed before ENABLE is read, cropped samples take 2 instructions more (docs/SPEED.md).
#[tactic(auto, unfolding(rules::specs::Capture::working_edge))]
pub fn goes_on(s: Capture, w: u32) -> bool
    ensures { result ≡ (capture_rules.working_edge s w && capture_rules.enabled s) }
{
    let cr = s.registers.cr;
    let before = s.pins.clock;
    let now = clock_pin(w);
    if !control::enable(cr) {
        return false;
    }
    if control::pckpol(cr) {
        return !before && now;
    }
    before && !now
}

// A pin blanks when it equals its polarity bit.
pub fn blanks(pin: bool, polarity: bool) -> bool
    ensures { result ≡ beq pin polarity }
{
    pin == polarity
}

// Rule 3: whether each sync blanks now.
#[tactic(auto, unfolding(rules::specs::Capture::blanking))]
pub fn blanking(s: Capture, w: u32) -> Syncs
    ensures { result ≡ capture_rules.blanking s w }
{
    let cr = s.registers.cr;
    let hsync = blanks(hsync_pin(w), control::hspol(cr));
    let vsync = blanks(vsync_pin(w), control::vspol(cr));
    Syncs { hsync, vsync }
}

// Whether a sync blanks.
pub fn any_blanks(now: Syncs) -> bool
    ensures { result ≡ capture_rules.any_blanks now }
{
    now.hsync || now.vsync
}

// The bits of RIS.
pub const FRAME: u32 = 0;

pub const OVR: u32 = 1;

pub const ERR: u32 = 2;

const VSYNC: u32 = 3;

const LINE: u32 = 4;

// A flag of RIS rises, by rules 3, 4 and 9, and by codes (W6).
#[tactic(auto, using(crate::proofs::Laws::or_raises), unfolding(rules::specs::State::raise, rules::specs::State::with_registers, rules::specs::State::with_ris))]
pub fn raise<const FLAG: u32>(mut s: Capture) -> Capture
    requires { FLAG < 32 }
    ensures { result ≡ state.raise FLAG s }
{
    s.registers.ris |= 1 << FLAG;
    s
}

#[tactic(auto, unfolding(rules::specs::Capture::vsync_flag))]
fn vsync_flag(s: Capture, now: Syncs) -> Capture
    ensures { result ≡ capture_rules.vsync_flag s now }
{
    if !s.syncs.vsync && now.vsync {
        return raise::<VSYNC>(s);
    }
    s
}

#[tactic(auto, unfolding(rules::specs::Capture::line_flag))]
fn line_flag(s: Capture, now: Syncs) -> Capture
    ensures { result ≡ capture_rules.line_flag s now }
{
    if !s.syncs.hsync && now.hsync {
        return raise::<LINE>(s);
    }
    s
}

// Rule 3: a sync that did not blank at the last working edge and blanks now raises its flag.
#[tactic(auto, unfolding(rules::specs::Capture::sync_flags))]
pub fn sync_flags(s: Capture, now: Syncs) -> Capture
    ensures { result ≡ capture_rules.sync_flags s now }
{
    line_flag(vsync_flag(s, now), now)
}
