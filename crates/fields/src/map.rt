// The register map: offsets, access kinds and reserved bits.
ghost use Rattle.std.specs.Prelude.{◌≡◌};
ghost use Rattle.bits.specs.Ranges.{mask};
ghost use Rattle.registers.specs.Map as register_map;

use registers::{Access, Register};

// The register at an offset, if there is one.
#[tactic(auto, unfolding(registers::specs::Map::register_at))]
pub fn at(offset: u32) -> Option<Register>
    ensures { result ≡ register_map.register_at offset }
{
    match offset {
        Register::CR => Some(Register::Control),
        Register::SR => Some(Register::Status),
        Register::RIS => Some(Register::RawStatus),
        Register::IER => Some(Register::InterruptEnable),
        Register::MIS => Some(Register::MaskedStatus),
        Register::ICR => Some(Register::InterruptClear),
        Register::ESCR => Some(Register::EmbeddedCode),
        Register::ESUR => Some(Register::EmbeddedUnmask),
        Register::CWSTRT => Some(Register::WindowStart),
        Register::CWSIZE => Some(Register::WindowSize),
        _ => None,
    }
}

// How the register may be accessed.
pub fn access(register: Register) -> Access
    ensures { result ≡ register_map.access register }
{
    match register {
        Register::Status | Register::RawStatus | Register::MaskedStatus => Access::ReadOnly,
        Register::InterruptClear => Access::WriteOnly,
        Register::Control
        | Register::InterruptEnable
        | Register::EmbeddedCode
        | Register::EmbeddedUnmask
        | Register::WindowStart
        | Register::WindowSize => Access::ReadWrite,
    }
}

// Whether the register is CR.
pub fn is_control(register: Register) -> bool
    ensures { result ≡ register_map.is_control register }
{
    register == Register::Control
}

// Whether the register is one that is not written while ENABLE is 1: ESCR, ESUR, CWSTRT or CWSIZE.
pub fn is_fixed(register: Register) -> bool
    ensures { result ≡ register_map.is_fixed register }
{
    matches!(
        register,
        Register::EmbeddedCode
            | Register::EmbeddedUnmask
            | Register::WindowStart
            | Register::WindowSize
    )
}

// The reserved bits, as a mask.
fn reserved(register: Register) -> u32
    ensures { result ≡ mask (register_map.reserved register) }
{
    match register {
        Register::Control => 0xFFFF_B000,
        Register::Status => 0xFFFF_FFF8,
        Register::RawStatus
        | Register::InterruptEnable
        | Register::MaskedStatus
        | Register::InterruptClear => 0xFFFF_FFE0,
        Register::EmbeddedCode | Register::EmbeddedUnmask => 0,
        Register::WindowStart => 0xE000_C000,
        Register::WindowSize => 0xC000_C000,
    }
}

// Whether a reserved bit is 1 in a value.
#[tactic(auto, using(registers::proofs::Masks::reserved_meets))]
pub fn reserved_set(register: Register, value: u32) -> bool
    ensures { result ≡ register_map.reserved_set register value }
{
    value & reserved(register) != 0
}
