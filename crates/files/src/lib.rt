// Running a trace file on a fresh device, over lent bytes and memory: the form checks, the register writes, then the samples as one run, taken
// from the file by the crates `trace_reader` and `trace`, writes one at a time and samples up to 256 at a time. Refused, the memory is as it was lent.
#![tactic(auto)]

ghost use Rattle.std.specs.Prelude.{false, ◌≡◌, ◌<◌, IfOk};
ghost use Rattle.rules.specs.declared.Device as device_code;
ghost use Rattle.rules.specs.RegisterCalls as register_rules;
ghost use Rattle.rules.specs.Run as run_rules;
ghost use Rattle.rules.specs.WellFormed.{malformed};
ghost use Rattle.rules.proofs.WellFormed.{WellFormed};
ghost use Rattle.trace_format.specs.Reading as reading;
ghost use Rattle.sampling.specs.Answers as sample_answers;
ghost use Rattle.device.specs.Answers as device_answers;
ghost use Rattle.file_rules.specs.File as file_rules;

use refusals::Refusal;
use rules::Device;
use sampling::run;
use trace::{check_file, check_form, samples_at, samples_start, write_count};
use trace_format::{SAMPLE_SIZE, Write};
use trace_reader::{Item, item_at};

// Write number `place` of a file: below the number of writes no sample, end or refusal is read.
fn write_at(file: &[u8], place: usize) -> Write
    requires { place < reading.write_count file.now }
    ensures { result ≡ reading.write_at file.now place }
{
    match item_at(file, place) {
        Ok(Some(Item::Write(w))) => w,
        _ => unreachable!(),
    }
}

// The writes of a file on a device, up to the first that is refused.
fn set_up(fresh: Device, file: &[u8]) -> Result<Device, Refusal>
    requires { (malformed fresh ≡ false) × (fresh.core.output.counts.samples ≡ 0) }
    ensures result_value { let all = file_rules.set_up fresh (reading.writes_of file.now) in device_answers.changed all.device result ≡ all }
    ensures device_value { IfOk result (λ d. (malformed d ≡ false) × (d.core.output.counts.samples ≡ 0)) }
{
    let mut d = fresh;
    for place in 0..write_count(file) {
        let w = write_at(file, place);
        d = device::write(d, w.offset as u32, w.value)?;
    }
    Ok(d)
}

// The samples of an accepted file in order, up to 256 at a time. None is refused, as the proof says.
fn steps(mut d: Device, buffer: &mut [u8], file: &[u8]) -> Device
    requires well_formed { WellFormed d }
    requires samples_value { d.core.output.counts.samples ≡ 0 }
    requires file_value { reading.file_refusal file.now ≡ 0 }
    ensures { sample_answers.ran result buffer.new ≡ run_rules.steps d buffer.old (reading.samples_of file.now) }
{
    let mut rest = &file[samples_start(file)..];
    let mut samples = [0; 256];
    while let Ok(n @ 1..) = samples_at(rest, 0, 256, &mut samples) {
        d = run(d, buffer, &samples[..n]);
        rest = &rest[SAMPLE_SIZE * n..];
    }
    d
}

// The samples of a file of the right form as one run, on the device that its writes left: refusals 9 and 7.
fn run_samples(d: Device, file: &[u8], memory: &mut [u8], start: usize) -> Result<Device, Refusal>
    requires d_value { malformed d ≡ false }
    requires samples_value { d.core.output.counts.samples ≡ 0 }
    requires file_value { reading.form_refusal file.now ≡ 0 }
    ensures { (fresh : device_code.Device) → file_rules.set_up fresh (reading.writes_of file.now) ≡ record { number = 0; device = d } → device_answers.ran register_rules.no_device result memory.new ≡ file_rules.run_on fresh file.now memory.old start }
{
    if memory.len() < start {
        return Err(Refusal::StartBeyond);
    }
    check_file(file)?;
    Ok(steps(d, &mut memory[start..], file))
}

// The form checks, the writes, then the samples.
fn run_on(fresh: Device, file: &[u8], memory: &mut [u8], start: usize) -> Result<Device, Refusal>
    requires { (malformed fresh ≡ false) × (fresh.core.output.counts.samples ≡ 0) }
    ensures { device_answers.ran register_rules.no_device result memory.new ≡ file_rules.run_on fresh file.now memory.old start }
{
    check_form(file)?;
    let d = set_up(fresh, file)?;
    run_samples(d, file, memory, start)
}

// A trace file on a fresh device, over the memory from the start byte on. Refusals 13, 10, 11, 13, 12, 13, the first refused write's number, 9, 7; refused,
// there is no device.
pub fn run_file(file: &[u8], memory: &mut [u8], start: usize) -> Result<Device, Refusal>
    ensures { device_answers.ran register_rules.no_device result memory.new ≡ file_rules.run_file file.now memory.old start }
{
    run_on(device::fresh(), file, memory, start)
}

// The same on a device made with a depth: refusal 18 comes first.
pub fn run_file_of(
    depth: u32,
    file: &[u8],
    memory: &mut [u8],
    start: usize,
) -> Result<Device, Refusal>
    ensures { device_answers.ran register_rules.no_device result memory.new ≡ file_rules.run_file_of depth file.now memory.old start }
{
    run_on(device::made(depth)?, file, memory, start)
}
