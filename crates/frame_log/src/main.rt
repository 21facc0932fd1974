// Three frames in two buffers in turn (W2), sample by sample: one board is held in `log`, in mode two, and lent for each sample. After each its answer is printed, and
// the part of A or B that is handed back; both are compared with the stored output. A write that fails is passed over: the comparison shows what is missing.
#![tactic(auto)]

ghost use Rattle.std.specs.Prelude.{◌≡◌};
ghost use Rattle.frame_log.specs.Frames.{three_frames, samples, left, sample_left, ready};

use board::HandedBack;
use board_rules::{Board, Handed, Landing, TwoAnswer};
use log_text::{Answer, Packed};
use refusals::Refusal;
use registers::Register;

// The starts of the frame buffers in their memories.
const START_A: usize = 0;

const START_B: usize = 4;

const TRACE: [u32; 24] = [
    0x0C000, 0x1C000, 0x00AAB, 0x10AAB, 0x0091B, 0x1091B, 0x2C000, 0x1C000, 0x00001, 0x10001,
    0x00002, 0x10002, 0x00003, 0x10003, 0x20004, 0x10004, 0x0C000, 0x3C000, 0x00005, 0x10005,
    0x00006, 0x10006, 0x2C000, 0x1C000,
];

// A sample's two answers.
fn sampled(rt: &impl Print, w: u32, answer: Result<TwoAnswer, Refusal>) {
    let _ = match answer {
        Ok(TwoAnswer { landing, packed }) => match landing {
            None => println!(rt; "sample {w:06x}: no landing, {}", Packed(packed)),
            Some(Landing { buffer, byte }) => println!(rt;
                "sample {w:06x}: landed in {buffer:?} at byte {byte}, {}",
                Packed(packed)
            ),
        },
        Err(refusal) => println!(rt; "sample {w:06x}: refused {}", refusal.number()),
    };
}

// The latest complete frame, handed back and printed: which it is, and its bytes.
fn handed(rt: &impl Print, b: Board, memory_a: &[u8], memory_b: &[u8]) {
    let HandedBack { frame, part } = match board::hand_back(
        b, memory_a, START_A, memory_b, START_B,
    ) {
        Ok(handed) => handed,
        Err(refusal) => {
            let _ = println!(rt; "  refused {}", refusal.number());
            return;
        }
    };
    let _ = match frame {
        Handed::Nothing => print!(rt; "  no frame"),
        Handed::FrameIn(buffer, _) => print!(rt; "  frame in {buffer:?}:"),
        Handed::TooShort(buffer, _) => print!(rt; "  {buffer:?} is too short"),
    };
    for byte in part {
        let _ = print!(rt; " {byte:02x}");
    }
    let _ = println!(rt; "");
}

// One sample: the board is lent for it, what it answered is printed, and the board is handed back.
fn turn(rt: &impl Print, mut b: Board, memory_a: &mut [u8], memory_b: &mut [u8], w: u32) -> Board
    ensures { left result memory_a.new memory_b.new ≡ sample_left b memory_a.old memory_b.old w }
{
    let answer = lent::sample_two(&mut b, memory_a, START_A, memory_b, START_B, w);
    sampled(rt, w, answer);
    b
}

// Mode two, a write of CR and the trace. The one board is held here, and lent for each sample; it and the memories after them are the rules' own.
fn log(rt: &impl Print, cr: u32, memory_a: &mut [u8], memory_b: &mut [u8]) -> Board
    ensures { left result memory_a.new memory_b.new ≡ samples (ready cr) memory_a.old memory_b.old three_frames }
{
    let fresh = board::fresh();
    let in_two = board::two_buffers(fresh);
    let _ = println!(rt; "two buffers: {}", Answer(in_two));
    let before = in_two.unwrap_or(fresh);
    let written = board::write(before, Register::CR, cr);
    let _ = println!(rt; "write of CR: {}", Answer(written));
    let mut b = written.unwrap_or(before);
    for w in TRACE {
        b = turn(rt, b, memory_a, memory_b, w);
        handed(rt, b, memory_a, memory_b);
    }
    b
}

fn main(rt: HostRuntime) {
    let mut memory_a = [0u8; 12];
    let mut memory_b = [0u8; 12];
    log(&rt, 0x48E1, &mut memory_a, &mut memory_b);
}
