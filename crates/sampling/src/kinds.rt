// The kinds of samples, and for each rules 2 to 9 in code: once the kind is known, the rules ask no more than it needs (docs/SPEED.md).
ghost use Rattle.std.specs.Prelude.{◌≡◌, List, ℕ, ◌+◌, ◌<◌, ◌^◌};
ghost use Rattle.output.specs.Answers.{left};
ghost use Rattle.output.specs.WellFormed.{Laid};
ghost use Rattle.rules.specs.declared.Capture.{Capture};
ghost use Rattle.rules.specs.declared.Device.{Device};
ghost use Rattle.rules.specs.State.{capture_of};
ghost use Rattle.rules.specs.Capture as capture_rules;
ghost use Rattle.rules.specs.Sample.{capture_sample};
ghost use Rattle.rules.specs.Run as run_rules;
ghost use Rattle.rules.specs.Unpadded as unpadded_rules;
ghost use Rattle.rules.proofs.WellFormed.{WellFormed, CaptureOk};
ghost use Rattle.capture.specs.Answers.{most_lines};
ghost use Rattle.full_word.specs.Answers.{completed};
ghost use Rattle.sampling.specs.Kinds as kind_rules;
ghost use Rattle.sampling.specs.Unpadded.{Plain};
ghost use Rattle.sampling.specs.KindLaws as kind_laws;

use capture::{padded_sample, unpadded_sample};
use coded_capture::{coded_sample, data_sample};
use full_word::{Completed, complete, complete_coded, padded_word};
use output::{Output, SLOTS};
use rules::Capture;

// A kind of sample.
pub trait Kind {
    // The samples of the kind, from a state on; and what rules 2 to 8 make of one.
    ghost Has: { Capture → ℕ → Type 0 };

    ghost captured: { Capture → ℕ → capture_rules.Captured };

    // Rules 2 to 9.
    fn after_grant(s: Capture, w: u32, o: Output, slots: &mut [u32; SLOTS]) -> Completed
        requires kind { Has s w }
        requires capture_ok { CaptureOk most_lines s }
        requires laid { Laid (left o slots.old) }
        requires counts_bound { (o.counts.completed + 1 < 2 ^ 32) × (o.counts.discarded + o.held + 1 < 2 ^ 32) }
        ensures { completed result slots.new ≡ run_rules.complete (captured s w).word (captured s w) (left o slots.old) };

    // A sample of the kind is what the rules say.
    ghost is_step: { (d : Device) (buffer : List ℕ) (w : ℕ) → WellFormed d → Has (capture_of d) w → run_rules.step d buffer w ≡ kind_rules.stepped_as (captured (capture_of d) w) d buffer w };
}

// By the sync pins, where it pads no word.
pub struct Unpadded;

impl Kind for Unpadded {
    ghost Has = { Plain };

    ghost captured = { unpadded_rules.unpadded_sample };

    ghost is_step = { kind_laws.unpadded_step };

    fn after_grant(s: Capture, w: u32, o: Output, slots: &mut [u32; SLOTS]) -> Completed {
        complete(unpadded_sample(s, w), o, slots)
    }
}

// By the sync pins, where it pads one (W4).
pub struct Padded;

impl Kind for Padded {
    ghost Has = { kind_rules.Pads };

    ghost captured = { kind_rules.padded };

    ghost is_step = { kind_laws.padded_step };

    fn after_grant(s: Capture, w: u32, o: Output, slots: &mut [u32; SLOTS]) -> Completed {
        padded_word(s.partial.bits, padded_sample(s, w), o, slots)
    }
}

// By codes (W6).
pub struct ByCodes;

impl Kind for ByCodes {
    ghost Has = { kind_rules.Coded };

    ghost captured = { capture_sample };

    ghost is_step = { kind_laws.coded_step };

    fn after_grant(s: Capture, w: u32, o: Output, slots: &mut [u32; SLOTS]) -> Completed {
        complete_coded(coded_sample(s, w), o, slots)
    }
}

// By codes, where its byte is a datum by itself.
pub struct Datum;

impl Kind for Datum {
    ghost Has = { kind_rules.IsDatum };

    ghost captured = { capture_sample };

    ghost is_step = { kind_laws.datum_step };

    fn after_grant(s: Capture, w: u32, o: Output, slots: &mut [u32; SLOTS]) -> Completed {
        complete(data_sample(s, w), o, slots)
    }
}
