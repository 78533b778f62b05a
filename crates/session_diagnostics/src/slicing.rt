// Files in slices.
ghost use Rattle.std.specs.Prelude.{◌≡◌, ◌<◌, take, drop, IfOk};
ghost use Rattle.session_model.specs.Diagnosing.{first_length, slices};

use docs_vfs::FileId;
use plain::Items;
use std::alloc::{AllocError, Global};

// How many files the first of so many slices has: they are shared evenly, rounded up.
fn first_length(count: u32, files: &[FileId]) -> usize
    requires { 0 < count }
    ensures { result ≡ first_length count files.now }
{
    files.len().div_ceil(count as usize)
}

// The first files, and those behind them.
#[tactic(auto, using(crate::proofs::Cutting::take_whole, crate::proofs::Cutting::drop_whole))]
fn cut(files: &[FileId], length: usize) -> (&[FileId], &[FileId])
    ensures first { result.0.now ≡ take length files.now }
    ensures later { result.1.now ≡ drop length files.now }
{
    match files.split_at_checked(length) {
        Some(parts) => parts,
        None => (files, &[]),
    }
}

/// So many slices of files, of which the first ones are one longer. An empty slice ends them.
#[tactic(auto, using(crate::proofs::Cutting::slices_before, crate::proofs::Cutting::slices_of_none, crate::proofs::Cutting::no_slices))]
pub(crate) fn slices(
    alloc: Global,
    count: u32,
    files: &[FileId],
) -> Result<Items<Items<FileId>>, AllocError>
    ensures { IfOk result (λ list. list ≡ slices count files.now) }
{
    let mut list = Items::new(alloc);
    let mut others = count;
    let mut remaining = files;
    while others > 0 && !remaining.is_empty() {
        let (first, later) = cut(remaining, first_length(others, remaining));
        list.push(Items::from_slice(alloc, first)?)?;
        remaining = later;
        others -= 1;
    }
    Ok(list)
}
