// The registers of the camera interface. Their map and their fields are definitions (specs/); the code for both is the crate `fields`.
#![tactic(auto)]

// The kinds of register.
#[derive(Clone, Copy, Debug, PartialEq, Eq)]
pub enum Register {
    Control,
    Status,
    RawStatus,
    InterruptEnable,
    MaskedStatus,
    InterruptClear,
    EmbeddedCode,
    EmbeddedUnmask,
    WindowStart,
    WindowSize,
}

// How a register may be accessed.
#[derive(Clone, Copy, Debug, PartialEq, Eq)]
pub enum Access {
    ReadWrite,
    ReadOnly,
    WriteOnly,
}

// Offsets, by the manual's names.
impl Register {
    pub const CR: u32 = 0x00;

    pub const SR: u32 = 0x04;

    pub const RIS: u32 = 0x08;

    pub const IER: u32 = 0x0C;

    pub const MIS: u32 = 0x10;

    pub const ICR: u32 = 0x14;

    pub const ESCR: u32 = 0x18;

    pub const ESUR: u32 = 0x1C;

    pub const CWSTRT: u32 = 0x20;

    pub const CWSIZE: u32 = 0x24;
}
