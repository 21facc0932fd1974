// What an accepted register write does to the capture state and to the FIFO ("Writing CR").
ghost use Rattle.std.specs.Prelude.{◌≡◌, ◌+◌, ◌<◌, ◌^◌};
ghost use Rattle.rules.specs.RegisterCalls as register_rules;

use capture::frame::is_open;
use codes::Waiting;
use fields::{control, map};
use fifo::discard;
use registers::Register;
use rules::{Capture, Core, Device, Frame, Partial, Registers, Syncs};

// ENABLE 0 to 1.
#[tactic(auto, unfolding(rules::specs::RegisterCalls::enabling, rules::specs::State::with_rate, rules::specs::State::with_frame, rules::specs::State::with_syncs, rules::specs::State::with_waiting))]
fn enabling(s: Capture) -> Capture
    ensures { result ≡ register_rules.enabling s }
{
    Capture {
        syncs: Syncs {
            hsync: false,
            vsync: false,
        },
        frame: Frame::Closed,
        rate: 0,
        waiting: Waiting::Zero,
        ..s
    }
}

// ENABLE 1 to 0.
#[tactic(auto, unfolding(rules::specs::RegisterCalls::disabling, rules::specs::State::close_frame, rules::specs::State::with_rate, rules::specs::State::with_frame, rules::specs::State::with_partial, rules::specs::State::with_waiting))]
fn disabling(s: Capture) -> Capture
    ensures { result ≡ register_rules.disabling s }
{
    Capture {
        frame: Frame::Closed,
        rate: 0,
        partial: Partial { count: 0, bits: 0 },
        waiting: Waiting::Zero,
        ..s
    }
}

#[tactic(auto, unfolding(rules::specs::RegisterCalls::switch_enable))]
fn switch_enable(v: u32, s: Capture) -> Capture
    ensures { result ≡ register_rules.switch_enable v s }
{
    match (control::enable(s.registers.cr), control::enable(v)) {
        (true, false) => disabling(s),
        (false, true) => enabling(s),
        _ => s,
    }
}

#[tactic(auto, unfolding(rules::specs::RegisterCalls::capture_rises))]
fn capture_rises(v: u32, s: Capture) -> bool
    ensures { result ≡ register_rules.capture_rises v s }
{
    !control::capture(s.registers.cr) && control::capture(v) && !is_open(s.frame)
}

#[tactic(auto, unfolding(rules::specs::RegisterCalls::switch_capture, rules::specs::State::with_rate))]
fn switch_capture(rises: bool, s: Capture) -> Capture
    ensures { result ≡ register_rules.switch_capture rises s }
{
    if rises { Capture { rate: 0, ..s } } else { s }
}

#[tactic(auto, unfolding(rules::specs::RegisterCalls::write_control, rules::specs::State::with_registers, rules::specs::State::with_cr))]
fn write_control(v: u32, s: Capture) -> Capture
    ensures { result ≡ register_rules.write_control v s }
{
    let mut t = switch_capture(capture_rises(v, s), switch_enable(v, s));
    t.registers.cr = v;
    t
}

// ICR: a 1 clears that bit of RIS.
#[tactic(auto, unfolding(rules::specs::RegisterCalls::clear_flags, rules::specs::State::with_ris))]
fn clear_flags(v: u32, mut r: Registers) -> Registers
    ensures { result ≡ register_rules.clear_flags v r }
{
    r.ris -= r.ris & v;
    r
}

#[tactic(auto, unfolding(rules::specs::RegisterCalls::write_register, rules::specs::State::with_registers, rules::specs::State::with_ier, rules::specs::State::with_escr, rules::specs::State::with_esur, rules::specs::State::with_cwstrt, rules::specs::State::with_cwsize))]
fn write_register(register: Register, v: u32, mut s: Capture) -> Capture
    ensures { result ≡ register_rules.write_register register v s }
{
    match register {
        Register::Control => return write_control(v, s),
        Register::Status | Register::RawStatus | Register::MaskedStatus => {}
        Register::InterruptEnable => s.registers.ier = v,
        Register::InterruptClear => s.registers = clear_flags(v, s.registers),
        Register::EmbeddedCode => s.registers.escr = v,
        Register::EmbeddedUnmask => s.registers.esur = v,
        Register::WindowStart => s.registers.cwstrt = v,
        Register::WindowSize => s.registers.cwsize = v,
    }
    s
}

// Whether a write is one of CR that takes ENABLE from 1 to 0.
fn disables(cr: u32, register: Register, v: u32) -> bool
    ensures { result ≡ register_rules.disables cr register v }
{
    map::is_control(register) && (control::enable(cr) && !control::enable(v))
}

// An accepted write, of the device.
#[tactic(auto, unfolding(rules::specs::RegisterCalls::write_at))]
pub fn write_at(d: Device, register: Register, v: u32) -> Device
    requires { d.core.output.counts.discarded + d.core.output.held < 2 ^ 32 }
    ensures { result ≡ register_rules.write_at d (Some register) v }
{
    let s = d.core.capture;
    let capture = write_register(register, v, s);
    let mut slots = d.slots;
    let output = if disables(s.registers.cr, register, v) {
        discard(0, d.core.output, &mut slots)
    } else {
        d.core.output
    };
    Device {
        core: Core { capture, output },
        slots,
    }
}
