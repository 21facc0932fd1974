// A trace file, version 1 or 2: the form checks, and samples many at a time, into a lent array. For a file that comes by parts, the checks of its header and of its
// length, and a write or sample from its bytes.
// It knows nothing of the device. Each function answers for every slice and number, and states its answer as an equation with a definition.
#![tactic(auto)]

mod decoding;
mod form;

pub use decoding::{check_file, sample_in, samples_at, write_in};
pub use form::{
    check_form, check_header, form_of, header_length, sample_count, samples_start, write_count,
};
