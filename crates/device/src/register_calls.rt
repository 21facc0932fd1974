// Register reads and writes, the interrupt line and re-arming.
ghost use Rattle.std.specs.Prelude.{cond, ◌≡◌};
ghost use Rattle.bits.specs.Tests.{number_if};
ghost use Rattle.refusals.specs.Refusals.{refused, answered};
ghost use Rattle.refusals.specs.Table.{answer_of};
ghost use Rattle.rules.specs.WellFormed as device_clauses;
ghost use Rattle.rules.specs.RegisterCalls as register_rules;
ghost use Rattle.device.specs.Answers as device_answers;

use crate::control_writes::write_at;
use capture::syncs::blanks;
use coded_capture::coded_syncs;
use fields::{control, map};
use refusals::Refusal;
use registers::{Access, Register};
use rules::{Capture, Device, Syncs};
use well_formed::malformed;

fn number_if(t: bool, n: u32) -> u32
    ensures { result ≡ number_if t n }
{
    if t { n } else { 0 }
}

// Whether each sync blanks, for SR: by the pins of the last sample, or with ESS 1 by the codes (W6).
#[tactic(auto, unfolding(rules::specs::RegisterCalls::pin_syncs))]
fn pin_syncs(s: Capture) -> Syncs
    ensures { result ≡ register_rules.pin_syncs s }
{
    let cr = s.registers.cr;
    let hsync = blanks(s.pins.hsync, control::hspol(cr));
    let vsync = blanks(s.pins.vsync, control::vspol(cr));
    Syncs { hsync, vsync }
}

#[tactic(auto, unfolding(rules::specs::RegisterCalls::shown_syncs))]
fn shown_syncs(s: Capture) -> Syncs
    ensures { result ≡ register_rules.shown_syncs s }
{
    if control::embedded(s.registers.cr) {
        coded_syncs(s)
    } else {
        pin_syncs(s)
    }
}

// SR.
#[tactic(auto, unfolding(rules::specs::RegisterCalls::status))]
fn status(d: Device) -> u32
    ensures { result ≡ register_rules.status d }
{
    let shown = shown_syncs(d.core.capture);
    let hsync = number_if(shown.hsync, 1);
    let vsync = number_if(shown.vsync, 2);
    let fne = number_if(0 < d.core.output.held, 4);
    hsync + vsync + fne
}

// What a register reads as.
#[tactic(auto, unfolding(rules::specs::RegisterCalls::value, rules::specs::RegisterCalls::masked))]
fn value(d: Device, register: Register) -> u32
    ensures { result ≡ register_rules.value d register }
{
    match register {
        Register::Control => d.core.capture.registers.cr,
        Register::Status => status(d),
        Register::RawStatus => d.core.capture.registers.ris,
        Register::InterruptEnable => d.core.capture.registers.ier,
        Register::MaskedStatus => d.core.capture.registers.ris & d.core.capture.registers.ier,
        Register::InterruptClear => 0,
        Register::EmbeddedCode => d.core.capture.registers.escr,
        Register::EmbeddedUnmask => d.core.capture.registers.esur,
        Register::WindowStart => d.core.capture.registers.cwstrt,
        Register::WindowSize => d.core.capture.registers.cwsize,
    }
}

fn no_read(access: Access) -> bool
    ensures { result ≡ register_rules.no_read access }
{
    matches!(access, Access::WriteOnly)
}

fn no_write(access: Access) -> bool
    ensures { result ≡ register_rules.no_write access }
{
    matches!(access, Access::ReadOnly)
}

// Refusal 1.
fn refuse_malformed(d: Device) -> Result<(), Refusal>
    ensures { answer_of result ≡ cond (device_clauses.malformed d) (refused 1) (answered tt) }
{
    if malformed(d) {
        Err(Refusal::Malformed)
    } else {
        Ok(())
    }
}

// A register read: refusals 1, 2, 3, or the value.
#[tactic(auto, unfolding(rules::specs::RegisterCalls::read, rules::specs::RegisterCalls::read_refusal))]
pub fn read(d: Device, offset: u32) -> Result<u32, Refusal>
    ensures { answer_of result ≡ register_rules.read d offset }
{
    refuse_malformed(d)?;
    let register = map::at(offset).ok_or(Refusal::NoRegister)?;
    if no_read(map::access(register)) {
        return Err(Refusal::AccessKind);
    }
    Ok(value(d, register))
}

// Refusal 5, of a write to a register.
fn unsupported_at(register: Register, v: u32) -> bool
    ensures { result ≡ register_rules.unsupported_at (Some register) v }
{
    map::is_control(register) && control::unsupported(v)
}

// Whether a CR bit other than 0 and 14 would change.
#[tactic(auto, unfolding(rules::specs::RegisterCalls::changes_setup))]
fn changes_setup(cr: u32, v: u32) -> bool
    ensures { result ≡ register_rules.changes_setup cr v }
{
    cr / 0x2 % 0x2000 != v / 0x2 % 0x2000 || cr / 0x8000 % 0x2_0000 != v / 0x8000 % 0x2_0000
}

fn fixed(cr: u32, register: Register, v: u32) -> bool
    ensures { result ≡ register_rules.fixed cr register v }
{
    map::is_fixed(register) || (map::is_control(register) && changes_setup(cr, v))
}

// Refusal 6, of a write to a register.
fn fixed_at(cr: u32, register: Register, v: u32) -> bool
    ensures { result ≡ register_rules.fixed_at cr (Some register) v }
{
    control::enable(cr) && fixed(cr, register, v)
}

// A register write: refusals 1 to 6 in order, or its effect.
#[tactic(auto, unfolding(rules::specs::RegisterCalls::write, rules::specs::RegisterCalls::write_refusal))]
pub fn write(d: Device, offset: u32, value: u32) -> Result<Device, Refusal>
    ensures { device_answers.changed d result ≡ register_rules.write d offset value }
{
    refuse_malformed(d)?;
    let register = map::at(offset).ok_or(Refusal::NoRegister)?;
    if no_write(map::access(register)) {
        return Err(Refusal::AccessKind);
    }
    if map::reserved_set(register, value) {
        return Err(Refusal::ReservedBit);
    }
    if unsupported_at(register, value) {
        return Err(Refusal::Unsupported);
    }
    if fixed_at(d.core.capture.registers.cr, register, value) {
        return Err(Refusal::Enabled);
    }
    Ok(write_at(d, register, value))
}

// The interrupt line is up exactly if MIS is not 0. Refusal 1.
#[tactic(auto, unfolding(rules::specs::RegisterCalls::interrupt, rules::specs::RegisterCalls::masked))]
pub fn interrupt(d: Device) -> Result<bool, Refusal>
    ensures { answer_of result ≡ register_rules.interrupt d }
{
    refuse_malformed(d)?;
    Ok(d.core.capture.registers.ris & d.core.capture.registers.ier != 0)
}

// A device re-armed: the next word goes to place 0. For `rearm`, and for the crate `board`.
#[tactic(auto, unfolding(rules::specs::RegisterCalls::rearmed, output::specs::Output::with_place))]
pub fn rearmed(mut d: Device) -> Device
    ensures { result ≡ register_rules.rearmed d }
{
    d.core.output.place = 0;
    d
}

// Re-arming: the next word goes to place 0. Refusal 1.
#[tactic(auto, unfolding(rules::specs::RegisterCalls::rearm))]
pub fn rearm(d: Device) -> Result<Device, Refusal>
    ensures { device_answers.changed d result ≡ register_rules.rearm d }
{
    refuse_malformed(d)?;
    Ok(rearmed(d))
}
