// The refusal table: why a call is refused, with the paper's number of each (specs/Table). A call that may be refused gives a `Result` with a `Refusal` as its error. How a
// call's refusal is found, its tests in order and the number of the first that holds, is specs/Refusals.
#![tactic(auto)]

ghost use Rattle.std.specs.Prelude.{◌≡◌};
ghost use Rattle.refusals.specs.Table as table;

// Why a call is refused, in the paper's order.
#[derive(Clone, Copy, Debug, PartialEq, Eq)]
pub enum Refusal {
    Malformed,
    NoRegister,
    AccessKind,
    ReservedBit,
    Unsupported,
    Enabled,
    SampleBits,
    SampleTotal,
    StartBeyond,
    Mark,
    Version,
    SampleCount,
    Length,
    WriteCount,
    Room,
    BufferMode,
    NoSample,
    Depth,
    PictureSize,
    PictureContent,
    SheetLimit,
}

impl Refusal {
    // The paper's number.
    pub fn number(self) -> u32
        ensures { result ≡ table.number self }
    {
        match self {
            Refusal::Malformed => 1,
            Refusal::NoRegister => 2,
            Refusal::AccessKind => 3,
            Refusal::ReservedBit => 4,
            Refusal::Unsupported => 5,
            Refusal::Enabled => 6,
            Refusal::SampleBits => 7,
            Refusal::SampleTotal => 8,
            Refusal::StartBeyond => 9,
            Refusal::Mark => 10,
            Refusal::Version => 11,
            Refusal::SampleCount => 12,
            Refusal::Length => 13,
            Refusal::WriteCount => 14,
            Refusal::Room => 15,
            Refusal::BufferMode => 16,
            Refusal::NoSample => 17,
            Refusal::Depth => 18,
            Refusal::PictureSize => 19,
            Refusal::PictureContent => 20,
            Refusal::SheetLimit => 21,
        }
    }
}

// The number of a call's answer, for callers in C: 0 where it is accepted.
pub fn number_of(answer: Result<(), Refusal>) -> u32
    ensures { result ≡ table.outcome answer }
{
    match answer {
        Ok(()) => 0,
        Err(refusal) => refusal.number(),
    }
}
