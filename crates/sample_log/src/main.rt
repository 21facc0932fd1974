// Trace T of the bench sheet, sample by sample: one board is held in `log`, in mode one, and lent for each sample. After each call
// its answer and what its device holds are printed, and compared with the stored output. A write that fails is passed over: the comparison shows what is missing.
#![tactic(auto)]

ghost use Rattle.std.specs.Prelude.{◌≡◌};
ghost use Rattle.rules.specs.RegisterCalls as register_rules;
ghost use Rattle.rules.specs.State as state;
ghost use Rattle.sample_log.specs.Samples.{trace_t, samples, left, sample_left, left_in_one};

use board_rules::Board;
use log_text::{Answer, Packed};
use output::SampleAnswer;
use refusals::Refusal;
use registers::Register;

// Trace T of the bench sheet, each program having its own data.
const TRACE_T: [u32; 8] = [
    0x0C000, 0x1C000, 0x00AAB, 0x10AAB, 0x0091B, 0x1091B, 0x2C000, 0x1C000,
];

// What the registers of the board's device read as, each with its name and so many digits.
fn registers(rt: &impl Print, b: Board) {
    for (name, offset, digits) in [
        ("  CR", Register::CR, 4),
        (", SR", Register::SR, 1),
        (", RIS", Register::RIS, 2),
        (", IER", Register::IER, 2),
        (", MIS", Register::MIS, 2),
        (", CWSTRT", Register::CWSTRT, 8),
        (", CWSIZE", Register::CWSIZE, 8),
    ] {
        let _ = match board::read(b, offset) {
            Ok(value) => print!(rt; "{name} {value:0digits$x}"),
            Err(refusal) => print!(rt; "{name} refused {}", refusal.number()),
        };
    }
    let _ = println!(rt; "");
}

// The held words, oldest first, the partial one, the place and the counts.
fn words(rt: &impl Print, b: Board) {
    let output = b.device.core.output;
    let _ = print!(rt; "  held {}", output.held);
    for word in b.device.slots.iter().take(output.held as usize) {
        let _ = print!(rt; " {word:08x}");
    }
    let partial = b.device.core.capture.partial;
    let _ = print!(rt; ", partial {}", partial.count);
    if 0 < partial.count {
        let _ = print!(rt; " {:08x}", partial.bits);
    }
    let _ = println!(rt;
        ", place {}, samples {}, completed {}, landed {}, discarded {}",
        output.place,
        output.counts.samples,
        output.counts.completed,
        output.counts.landed,
        output.counts.discarded,
    );
}

// The answer of the write of CR, and the board after it.
fn written(rt: &impl Print, cr: u32, answer: Result<Board, Refusal>, b: Board) {
    let _ = println!(rt; "write 00 {cr:04x}: {}", Answer(answer));
    registers(rt, b);
    words(rt, b);
}

// A sample's two answers, and the board after it.
fn sampled(rt: &impl Print, w: u32, answer: Result<SampleAnswer, Refusal>, b: Board) {
    let _ = match answer {
        Ok(SampleAnswer { landing, packed }) => match landing {
            None => println!(rt; "sample {w:06x}: no landing, {}", Packed(packed)),
            Some(byte) => println!(rt; "sample {w:06x}: landed at byte {byte}, {}", Packed(packed)),
        },
        Err(refusal) => println!(rt; "sample {w:06x}: refused {}", refusal.number()),
    };
    registers(rt, b);
    words(rt, b);
}

// One sample: the board is lent for it, what it answered and what its device then holds are printed, and the board is handed back.
fn turn(rt: &impl Print, mut b: Board, memory: &mut [u8], w: u32) -> Board
    ensures { left result memory.new ≡ sample_left b memory.old w }
{
    let answer = lent::sample(&mut b, memory, 0, w);
    sampled(rt, w, answer, b);
    b
}

// A write of CR and trace T. The one board is held here, and lent for each sample. It stays in mode one; its device and the memory after them are the rules' own.
fn log(rt: &impl Print, cr: u32, memory: &mut [u8]) -> Board
    ensures { left result memory.new ≡ left_in_one (samples (register_rules.write state.fresh 0x00 cr).device memory.old trace_t) }
{
    let fresh = board::fresh();
    let answer = board::write(fresh, Register::CR, cr);
    let mut b = answer.unwrap_or(fresh);
    written(rt, cr, answer, b);
    for w in TRACE_T {
        b = turn(rt, b, memory, w);
    }
    b
}

fn main(rt: HostRuntime) {
    let mut memory = [0u8; 8];
    log(&rt, 0x48E3, &mut memory);
}
