// A reader over a lent file: it holds the file and its place.
ghost use Rattle.std.specs.Prelude.{◌≡◌, ◌<◌, ◌^◌};
ghost use Rattle.trace_format.specs.Reading as reading;
ghost use Rattle.trace_reader.specs.Answers as trace_answers;

use crate::items::item_at;
use crate::{Item, Read};
use refusals::Refusal;
use trace::check_form;

#[derive(Clone, Copy, Debug, PartialEq, Eq)]
pub struct Reader<'a> {
    pub file: &'a [u8],
    pub place: usize,
}

// What stands at a place of a file that passes the form checks, or their refusal.
#[tactic(auto, using(refusals::proofs::Numbered::never_zero), unfolding(trace_format::specs::Reading::found, trace_format::specs::Reading::past))]
fn found(file: &[u8], place: usize) -> Result<Option<Item>, Refusal>
    ensures result_value { trace_answers.item result ≡ reading.found file.now place }
    ensures result_bound { reading.past place (trace_answers.item result) < 2 ^ 64 }
{
    check_form(file)?;
    item_at(file, place)
}

// A reader's place after what it found: at a refusal and at the end it stays.
#[tactic(auto, unfolding(trace_format::specs::Reading::past))]
fn past(place: usize, item: Result<Option<Item>, Refusal>) -> usize
    requires { reading.past place (trace_answers.item item) < 2 ^ 64 }
    ensures { result ≡ reading.past place (trace_answers.item item) }
{
    match item {
        Ok(Some(_)) => place + 1,
        Ok(None) => place,
        Err(_) => place,
    }
}

impl<'a> Reader<'a> {
    // A reader at the first place. Opening makes no checks: a reader of a file that does not pass the form checks answers their refusal
    // at each `next`.
    pub fn open(file: &'a [u8]) -> Reader<'a>
        ensures { (result.file ≡ file.entry) × (result.place ≡ 0) }
    {
        Reader { file, place: 0 }
    }

    // The item at the reader's place, or a refusal; the place moves past an item, and stays at a refusal and at the end.
    #[tactic(auto, unfolding(trace_format::specs::Reading::read))]
    pub fn next(&mut self) -> Result<Option<Item>, Refusal>
        ensures { (trace_answers.read (record { item = result; place = self.new.place }) ≡ reading.read self.old.file.now self.old.place) × (self.new.file ≡ self.old.file) }
    {
        let item = found(self.file, self.place);
        self.place = past(self.place, item);
        item
    }

    // Its place.
    pub fn place(&self) -> usize
        ensures { result ≡ self.now.place }
    {
        self.place
    }
}

// One reading at any place, through a reader: for callers that have a file and a number.
pub fn read_once(file: &[u8], place: usize) -> Read
    ensures { trace_answers.read result ≡ reading.read file.now place }
{
    let mut reader = Reader { file, place };
    let item = reader.next();
    Read {
        item,
        place: reader.place,
    }
}
