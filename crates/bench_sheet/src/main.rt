// The bench sheet, run: each call's answer and what the device and memory hold after it are printed, and compared with the stored output. A write that fails is passed over:
// the comparison shows what is missing.
#![tactic(auto)]

use log_text::Answer;
use numbers::number;
use registers::Register;
use rules::Device;

const TRACE_T: [u32; 8] = [
    0x0C000, 0x1C000, 0x00AAB, 0x10AAB, 0x0091B, 0x1091B, 0x2C000, 0x1C000,
];

// A register write: what it answers is printed.
fn write(rt: &impl Print, d: Device, offset: u32, value: u32) -> Device {
    let written = device::write(d, offset, value);
    let _ = println!(rt; "write {offset:02x} {value:04x}: {}", Answer(written));
    written.unwrap_or(d)
}

// A register read: what it answers is printed.
fn read(rt: &impl Print, d: Device, offset: u32) {
    let _ = match device::read(d, offset) {
        Ok(value) => println!(rt; "read {offset:02x}: {value:04x}"),
        Err(refusal) => println!(rt; "read {offset:02x}: refused {}", refusal.number()),
    };
}

// A run over 8 bytes of memory, all 0 before it: its answer, the counts, CR, RIS and SR, and the two words of the memory.
fn run(rt: &impl Print, d: Device, start: usize, samples: &[u32]) -> Device {
    let mut memory = [0u8; 8];
    let ran = device::run(d, &mut memory, start, samples);
    let _ = println!(rt; "run from byte {start}: {}", Answer(ran));
    let after = ran.unwrap_or(d);
    let output = after.core.output;
    let _ = println!(rt;
        "  samples {}, landed {}, held {}, discarded {}, memory {:08x} {:08x}",
        output.counts.samples,
        output.counts.landed,
        output.held,
        output.counts.discarded,
        number::<4>(&memory, 0),
        number::<4>(&memory, 4),
    );
    for register in [Register::CR, Register::RIS, Register::SR] {
        let _ = print!(rt; "  ");
        read(rt, after, register);
    }
    after
}

// Trace T from a start byte, with CR written before it.
fn trace_t(rt: &impl Print, cr: u32, start: usize) -> Device {
    let d = write(rt, device::fresh(), Register::CR, cr);
    run(rt, d, start, &TRACE_T)
}

// One blank edge and nine pixels, 1 to 9, without a grant.
fn nine_pixels(rt: &impl Print) -> Device {
    let samples = [
        0x0C000, 0x1C000, 0x00001, 0x10001, 0x00002, 0x10002, 0x00003, 0x10003, 0x00004, 0x10004,
        0x00005, 0x10005, 0x00006, 0x10006, 0x00007, 0x10007, 0x00008, 0x10008, 0x00009, 0x10009,
    ];
    let d = write(rt, device::fresh(), Register::CR, 0x48E3);
    run(rt, d, 0, &samples)
}

fn windows(rt: &impl Print) {
    let _ = println!(rt; "A window of two pixels from column 1 holds 2331 and 2732:");
    let line = [
        0x0C000, 0x1C000, 0x00AAB, 0x10AAB, 0x0091B, 0x1091B, 0x00AAC, 0x10AAC, 0x00AAD, 0x30AAD,
    ];
    let d = write(rt, device::fresh(), Register::CWSTRT, 1);
    let d = write(rt, d, Register::CWSIZE, 1);
    let d = write(rt, d, Register::CR, 0x48E7);
    run(rt, d, 0, &line);
}

fn registers(rt: &impl Print) {
    let _ = println!(rt;
        "CR write 0x8 is accepted (W4), and 0x10 (W6); 0x18 is refused 5, 0x1008 is refused 4:"
    );
    let d = write(rt, device::fresh(), Register::CR, 0x8);
    let d = write(rt, d, Register::CR, 0x10);
    let d = write(rt, d, Register::CR, 0x18);
    let d = write(rt, d, Register::CR, 0x1008);
    let _ = println!(rt; "Enabled, CWSTRT write 0 is refused 6:");
    let d = write(rt, d, Register::CR, 0x48E3);
    let d = write(rt, d, Register::CWSTRT, 0);
    let _ = println!(rt; "Sample 0x40000 is refused 7, 0x3FFFF accepted:");
    let d = run(rt, d, 0, &[0x40000]);
    run(rt, d, 0, &[0x3FFFF]);
    let _ = println!(rt; "A fresh device gives SR 3; no register, and access against its kind:");
    let d = device::fresh();
    read(rt, d, Register::SR);
    read(rt, d, 0x28);
    read(rt, d, Register::ICR);
    let d = write(rt, d, Register::SR, 0);
    let _ = println!(rt; "A malformed device is refused 1:");
    let mut m = d;
    m.core.capture.registers.ier = 32;
    read(rt, m, Register::CR);
}

fn main(rt: HostRuntime) {
    let _ = println!(rt; "Trace T at 12, 10 and 8 bits:");
    let d = trace_t(&rt, 0x48E3, 0);
    trace_t(&rt, 0x44E3, 0);
    trace_t(&rt, 0x40E3, 0);
    let _ = println!(rt; "RIS 0x19, ICR 1 leaves RIS 0x18:");
    let d = write(&rt, d, Register::ICR, 1);
    read(&rt, d, Register::RIS);
    let _ = println!(rt;
        "Nine pixels without a grant; a tenth; a tenth with a grant in its working sample:"
    );
    let d = nine_pixels(&rt);
    run(&rt, d, 0, &[0x0000A, 0x1000A]);
    run(&rt, d, 0, &[0x0000A, 0x3000A]);
    windows(&rt);
    registers(&rt);
    let _ = println!(rt;
        "Memory of 8 bytes: start 4 has room for one word, 5 and 8 for none, 9 is refused 9. An empty trace changes nothing:"
    );
    for start in [4, 5, 8, 9] {
        trace_t(&rt, 0x48E3, start);
    }
    run(&rt, device::fresh(), 0, &[]);
}
