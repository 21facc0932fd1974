// The test for malformed devices, clause by clause in the paper's order, and the clause of W9: over a device, and over a core and lent slots, for the crates that lend them.
#![tactic(auto)]

ghost use Rattle.std.specs.Prelude.{◌≡◌, not, ◌*◌, ◌/◌, ◌^◌, eqb, length};
ghost use Rattle.registers.specs.Control.{edm};
ghost use Rattle.packing.specs.Packing as packing_rules;
ghost use Rattle.output.specs.Output.{slot_count};
ghost use Rattle.rules.specs.State as state;
ghost use Rattle.rules.specs.WellFormed as device_clauses;

use capture::frame::{is_open, rate_period};
use fields::{control, map};
use fifo::clauses::{bad_counts, bad_depth, bad_fifo, bad_place};
use output::SLOTS;
use packing::{per_word, width};
use registers::Register;
use rules::{Capture, Core, Device, Frame, Registers};

// How many bits some data occupy.
fn used(cr: u32, count: u32) -> u64
    ensures { result ≡ packing_rules.width (edm cr) * count }
{
    width(control::edm(cr)) as u64 * count as u64
}

// Whether bits stand above the used ones.
fn above(bits: u32, used: u64) -> bool
    ensures { result ≡ not (eqb (bits / 2 ^ used) 0) }
{
    used < 32 && bits >> used != 0
}

#[tactic(auto, unfolding(rules::specs::WellFormed::unused_bits))]
fn unused_bits(s: Capture) -> bool
    ensures { result ≡ device_clauses.unused_bits s }
{
    above(s.partial.bits, used(s.registers.cr, s.partial.count))
}

#[tactic(auto, unfolding(rules::specs::WellFormed::full_partial))]
fn full_partial(s: Capture) -> bool
    ensures { result ≡ device_clauses.full_partial s }
{
    per_word(control::edm(s.registers.cr)) <= s.partial.count
}

#[tactic(auto, unfolding(rules::specs::WellFormed::excluded))]
fn excluded(r: Registers) -> bool
    ensures { result ≡ device_clauses.excluded r }
{
    map::reserved_set(Register::Control, r.cr)
        || map::reserved_set(Register::InterruptEnable, r.ier)
        || map::reserved_set(Register::WindowStart, r.cwstrt)
        || map::reserved_set(Register::WindowSize, r.cwsize)
        || control::unsupported(r.cr)
}

#[tactic(auto, unfolding(rules::specs::WellFormed::bad_flags))]
fn bad_flags(r: Registers) -> bool
    ensures { result ≡ device_clauses.bad_flags r }
{
    31 < r.ris || 31 < r.ier
}

fn is_taken(f: Frame) -> bool
    ensures { result ≡ state.is_taken f }
{
    matches!(f, Frame::Open(true, _))
}

fn lines(f: Frame) -> u32
    ensures { result ≡ device_clauses.lines f }
{
    match f {
        Frame::Closed => 0,
        Frame::Open(_, scan) => scan.lines,
    }
}

fn pixels(f: Frame) -> u32
    ensures { result ≡ device_clauses.pixels f }
{
    match f {
        Frame::Closed => 0,
        Frame::Open(_, scan) => scan.pixels,
    }
}

#[tactic(auto, unfolding(rules::specs::WellFormed::active_disabled))]
fn active_disabled(d: Device) -> bool
    ensures { result ≡ device_clauses.active_disabled d }
{
    let s = d.core.capture;
    !control::enable(s.registers.cr)
        && (is_open(s.frame) || 0 < d.core.output.held || 0 < s.partial.count || 0 < s.rate)
}

#[tactic(auto, unfolding(rules::specs::WellFormed::partial_outside))]
fn partial_outside(s: Capture) -> bool
    ensures { result ≡ device_clauses.partial_outside s }
{
    0 < s.partial.count && !is_taken(s.frame)
}

#[tactic(auto, unfolding(rules::specs::WellFormed::bad_rate))]
fn bad_rate(s: Capture) -> bool
    ensures { result ≡ device_clauses.bad_rate s }
{
    rate_period(s.registers.cr) <= s.rate
}

#[tactic(auto, unfolding(rules::specs::WellFormed::above_samples))]
fn above_samples(d: Device) -> bool
    ensures { result ≡ device_clauses.above_samples d }
{
    let frame = d.core.capture.frame;
    let counts = d.core.output.counts;
    counts.samples < lines(frame)
        || counts.samples < pixels(frame)
        || counts.samples < counts.completed
}

// Whether the device of a core and lent slots is malformed.
#[tactic(auto, unfolding(rules::specs::WellFormed::malformed))]
pub fn malformed_core(core: Core, slots: &[u32; SLOTS]) -> bool
    requires { length slots.now ≡ slot_count }
    ensures { result ≡ device_clauses.malformed (record { core = core; slots = slots.now }) }
{
    let s = core.capture;
    let r = s.registers;
    let o = core.output;
    let d = Device {
        core,
        slots: *slots,
    };
    bad_fifo(o, slots)
        || unused_bits(s)
        || full_partial(s)
        || excluded(r)
        || bad_flags(r)
        || active_disabled(d)
        || partial_outside(s)
        || bad_rate(s)
        || above_samples(d)
        || bad_place(o)
        || bad_counts(o)
        || bad_depth(o.depth)
}

// Whether the device is malformed.
pub fn malformed(d: Device) -> bool
    ensures { result ≡ device_clauses.malformed d }
{
    malformed_core(d.core, &d.slots)
}
