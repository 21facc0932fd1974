// Running a trace file by parts: a state takes the file's bytes as they come, cut in any way, and the end answers as for the whole file. The state never answers a
// refusal of the file: it remembers the first refused write or sample and goes on counting. A part's samples are run by stretches, its other bytes one at a time.
#![tactic(auto)]

ghost use Rattle.std.specs.Prelude.{List, ◌≡◌, ℕ, ◌+◌, ◌*◌, ◌≤◌, ◌<◌, ◌^◌, length, take};
ghost use Rattle.rules.specs.RegisterCalls as register_rules;
ghost use Rattle.trace_format.specs.Format as format;
ghost use Rattle.trace_format.specs.Reading as reading;
ghost use Rattle.device.specs.Answers as device_answers;
ghost use Rattle.file_rules.specs.Parts as parts_rules;
ghost use Rattle.parts.specs.Answers as parts_answers;
ghost use Rattle.parts.specs.Forward as forward;

use refusals::Refusal;
use rules::Device;
use trace::{
    check_header, form_of, header_length, sample_count, sample_in, samples_at, samples_start,
    write_in,
};
use trace_format::{SAMPLE_SIZE, WRITE_SIZE};

// The state between two parts: the header as far as it has come, how many bytes have come, the bytes of the write or sample that has begun, the device, and the first
// refused write or sample. The device stands beside the outcome: a refusal leaves it, as `parts_rules.State` says. `head` and `item` are arrays, and `taken` counts beside them:
// there is no heap, and `parts_rules.State` has them so.
#[derive(Clone, Copy)]
pub struct Parts {
    pub head: [u8; 10],
    pub taken: usize,
    pub item: [u8; 5],
    pub device: Device,
    pub outcome: Result<(), Refusal>,
}

impl Parts {
    // The state before the first byte, with a device: a fresh one, or one made with a depth, for the run of a file. A malformed one is refused, 1, at the first write or sample.
    #[tactic(auto, unfolding(file_rules::specs::Parts::opened))]
    pub fn open(device: Device) -> Parts
        ensures { parts_answers.state result ≡ parts_rules.opened device }
    {
        Parts {
            head: [0; 10],
            taken: 0,
            item: [0; 5],
            device,
            outcome: Ok(()),
        }
    }

    // The length that the header gives.
    fn whole(&self) -> usize
        ensures value { result ≡ reading.whole self.now.head }
        ensures upper_bound { result < 2 ^ 34 }
    {
        samples_start(&self.head) + SAMPLE_SIZE * sample_count(&self.head)
    }

    // Whether a byte more can change the answer.
    #[tactic(auto, using(refusals::proofs::Numbered::never_zero), unfolding(file_rules::specs::Parts::wants))]
    fn wants(&self) -> bool
        ensures { result ≡ parts_rules.wants self.now.head self.now.taken }
    {
        match check_header(&self.head, self.taken) {
            Ok(()) => self.taken <= self.whole(),
            Err(refusal) => matches!(refusal, Refusal::Length),
        }
    }

    // How many bytes more are wanted before a refusal can be certain; 0 where no further byte changes the answer.
    #[tactic(auto, unfolding(file_rules::specs::Parts::wanted))]
    pub fn wanted(&self) -> usize
        ensures value { result ≡ parts_rules.wanted self.now.head self.now.taken }
        ensures result_bound { 0 < result → self.now.taken + result < 2 ^ 35 }
    {
        if !self.wants() {
            return 0;
        }
        if self.taken < 8 {
            return 8 - self.taken;
        }
        let header = header_length(&self.head);
        if self.taken < header {
            return header - self.taken;
        }
        self.whole() + 1 - self.taken
    }

    // A write or sample with all its bytes has left this device, or is refused.
    fn note(&mut self, done: Result<Device, Refusal>)
        ensures { parts_answers.state self.new ≡ forward.noted (parts_answers.state self.old) (device_answers.changed self.old.device done) }
    {
        self.item = [0; 5];
        self.outcome = done.map(|_| ());
        if let Ok(device) = done {
            self.device = device;
        }
    }

    // A write, and a sample, with all its bytes.
    #[tactic(auto, unfolding(file_rules::specs::Parts::after_write))]
    fn after_write(&mut self)
        ensures { parts_answers.state self.new ≡ parts_rules.after_write (parts_answers.state self.old) }
    {
        let w = write_in(&self.item);
        self.note(device::write(self.device, w.offset as u32, w.value));
    }

    #[tactic(auto, unfolding(file_rules::specs::Parts::after_sample))]
    fn after_sample(&mut self, memory: &mut [u8], start: usize)
        ensures { parts_answers.taken self.new memory.new ≡ parts_rules.after_sample start (parts_answers.state self.old) memory.old }
    {
        let samples = [sample_in(&self.item)];
        self.note(device::run(self.device, memory, start, &samples));
    }

    // A byte of the header, of a write, of a sample.
    fn header_byte(&mut self, b: u8)
        requires { self.old.taken < 10 }
        ensures { parts_answers.state self.new ≡ parts_rules.header_byte (parts_answers.state self.old) b }
    {
        self.head[self.taken] = b;
        self.taken += 1;
    }

    #[tactic(auto, unfolding(file_rules::specs::Parts::write_byte))]
    fn write_byte(&mut self, b: u8)
        requires { (format.header_length (reading.version_of self.old.head) ≤ self.old.taken) × (self.old.taken < 2 ^ 35) }
        ensures { parts_answers.state self.new ≡ parts_rules.write_byte (parts_answers.state self.old) (parts_rules.write_place (parts_answers.state self.old)) b }
    {
        let place = (self.taken - header_length(&self.head)) % WRITE_SIZE;
        self.item[place] = b;
        self.taken += 1;
        if place + 1 == WRITE_SIZE {
            self.after_write();
        }
    }

    #[tactic(auto, unfolding(file_rules::specs::Parts::sample_byte))]
    fn sample_byte(&mut self, b: u8, memory: &mut [u8], start: usize)
        requires { (reading.sample_start self.old.head 0 ≤ self.old.taken) × (self.old.taken < 2 ^ 35) }
        ensures { parts_answers.taken self.new memory.new ≡ parts_rules.sample_byte start (parts_answers.taken self.old memory.old) (parts_rules.sample_place (parts_answers.state self.old)) b }
    {
        let place = (self.taken - samples_start(&self.head)) % SAMPLE_SIZE;
        self.item[place] = b;
        self.taken += 1;
        if place + 1 == SAMPLE_SIZE {
            self.after_sample(memory, start);
        }
    }

    // The next byte.
    #[tactic(auto, unfolding(file_rules::specs::Parts::take_byte, file_rules::specs::Parts::falls, file_rules::specs::Parts::byte_at))]
    fn take_byte(&mut self, b: u8, memory: &mut [u8], start: usize)
        ensures { parts_answers.taken self.new memory.new ≡ parts_rules.take_byte start (parts_answers.taken self.old memory.old) b }
    {
        if !self.wants() {
            return;
        }
        if self.taken < header_length(&self.head) {
            return self.header_byte(b);
        }
        let whole = self.whole();
        if self.outcome.is_ok() {
            if self.taken < samples_start(&self.head) {
                return self.write_byte(b);
            }
            if self.taken < whole {
                return self.sample_byte(b, memory, start);
            }
        }
        self.taken += 1;
    }

    // The samples left in the file, where one begins.
    #[tactic(auto, using(refusals::proofs::Numbered::never_zero), unfolding(crate::specs::Forward::samples_left))]
    fn samples_left(&self) -> usize
        ensures value { result ≡ forward.samples_left self.now.head self.now.taken }
        ensures result_bound { 0 < result → self.now.taken + format.sample_size * result < 2 ^ 34 }
    {
        if check_header(&self.head, self.taken).is_err() {
            return 0;
        }
        let from = samples_start(&self.head);
        if self.taken < from {
            return 0;
        }
        if (self.taken - from) % SAMPLE_SIZE != 0 {
            return 0;
        }
        self.whole().saturating_sub(self.taken) / SAMPLE_SIZE
    }

    // The samples at the front of some bytes, up to 512, as one run: how many bytes they are. No byte is taken where no sample begins, and where one of them or the run is
    // refused: the bytes one at a time tell which sample it is.
    fn take_samples(&mut self, bytes: &[u8], memory: &mut [u8], start: usize) -> usize
        ensures bytes_in_bounds { result ≤ length bytes.now }
        ensures memory_after { parts_answers.taken self.new memory.new ≡ parts_rules.take_bytes start (parts_answers.taken self.old memory.old) (take result bytes.now) }
    {
        if self.outcome.is_err() {
            return 0;
        }
        let mut samples = [0; 512];
        let Ok(n @ 1..) = samples_at(bytes, 0, self.samples_left(), &mut samples) else {
            return 0;
        };
        let Ok(device) = device::run(self.device, memory, start, &samples[..n]) else {
            return 0;
        };
        self.device = device;
        self.item = [0; 5];
        self.taken += SAMPLE_SIZE * n;
        SAMPLE_SIZE * n
    }

    // Bytes that are counted only, behind a refused write or sample; and bytes that are not wanted, not even counted. How many they are, of n.
    fn count_bytes(&mut self, n: usize) -> usize
        ensures bytes_le_n { result ≤ n }
        ensures by_index { (start : ℕ) (memory bs : List ℕ) → length bs ≡ result → parts_answers.taken self.new memory ≡ parts_rules.take_bytes start (parts_answers.taken self.old memory) bs }
    {
        if !self.wants() {
            return n;
        }
        if self.outcome.is_ok() {
            return 0;
        }
        if self.taken < header_length(&self.head) {
            return 0;
        }
        let bytes = n.min(self.whole() + 1 - self.taken);
        self.taken += bytes;
        bytes
    }

    // Some bytes of a part: how many, at least one.
    fn take_some(&mut self, bytes: &[u8], memory: &mut [u8], start: usize) -> usize
        requires { 0 < length bytes.now }
        ensures bytes_nonzero { (0 < result) × (result ≤ length bytes.now) }
        ensures memory_after { parts_answers.taken self.new memory.new ≡ parts_rules.take_bytes start (parts_answers.taken self.old memory.old) (take result bytes.now) }
    {
        let ran = self.take_samples(bytes, memory, start);
        if ran != 0 {
            return ran;
        }
        let counted = self.count_bytes(bytes.len());
        if counted != 0 {
            return counted;
        }
        self.take_byte(bytes[0], memory, start);
        1
    }

    // The next bytes of the file, over the memory from the start byte on. No refusal of the file is answered. Memory and start are the same at each call: the memory is what the last
    // one left, and nobody else writes it.
    pub fn take(&mut self, bytes: &[u8], memory: &mut [u8], start: usize)
        ensures { parts_answers.taken self.new memory.new ≡ parts_rules.take_bytes start (parts_answers.taken self.old memory.old) bytes.now }
    {
        let mut rest = bytes;
        while !rest.is_empty() {
            let n = self.take_some(rest, memory, start);
            rest = &rest[n..];
        }
    }

    // The end of the file: the form checks 13, 10, 11, 13, 12, 13, the first refused write's or sample's number, 9, without a device; or the device after the file. Memory and start are
    // those of the calls of `take`.
    #[tactic(auto, using(refusals::proofs::Numbered::never_zero), unfolding(file_rules::specs::Parts::ended, file_rules::specs::Parts::end_refusal))]
    pub fn end(&self, memory: &[u8], start: usize) -> Result<Device, Refusal>
        ensures { device_answers.changed register_rules.no_device result ≡ parts_rules.ended (parts_answers.state self.now) memory.now start }
    {
        form_of(&self.head, self.taken)?;
        self.outcome?;
        if memory.len() < start {
            return Err(Refusal::StartBeyond);
        }
        Ok(self.device)
    }
}
