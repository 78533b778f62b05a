// Tests of texts, bytes, JSON, maps and frames, of what no stored session shows: one call of each kind that ends well, ledgers of steps,
// and hashes from outside.
pub(crate) mod calls;
mod ends;
mod examples;
mod frames;
mod hashes;
mod ledgers;
mod texts;
mod values;
