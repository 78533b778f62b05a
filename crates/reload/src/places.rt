//! Where crates stand in the graph.
ghost use Rattle.std.specs.Prelude.{◌≡◌, ◌<◌, take, drop, IfOk, IfSome};
ghost use Rattle.reload.specs.Graph.{most_crates, place_at, next_after, places_from, standing_at, number_of};

use docs_vfs::FileId;
use plain::{Items, NoMemory};
use std::alloc::Global;

/// The file and the number of a crate.
pub(crate) type Place = (FileId, u32);

#[tactic(auto, unfolding(crate::specs::Graph::most_crates))]
fn place_at(next: u32, file: Option<FileId>) -> Option<Place>
    ensures place { result ≡ place_at next file }
    ensures room { IfSome result (λ _. next < most_crates) }
{
    match file {
        None => None,
        Some(file) => {
            if next < u32::MAX {
                Some((file, next))
            } else {
                None
            }
        }
    }
}

#[tactic(auto, unfolding(crate::specs::Graph::most_crates))]
fn next_after(next: u32, place: &Option<Place>) -> u32
    requires { IfSome place.now (λ _. next < most_crates) }
    ensures { result ≡ next_after next place.now }
{
    match place {
        None => next,
        Some(_) => next + 1,
    }
}

/// Where crates stand in the graph of which these files were answered.
pub(crate) fn places_of(
    alloc: Global,
    files: &[Option<FileId>],
) -> Result<Items<Option<Place>>, NoMemory>
    ensures { IfOk result (λ places. places ≡ places_from 0 files.now) }
{
    let mut places = Items::new(alloc);
    let mut next = 0u32;
    for file in files {
        let place = place_at(next, *file);
        next = next_after(next, &place);
        places.push(place)?;
    }
    Ok(places)
}

pub(crate) fn place_of(places: &[Option<Place>], index: usize) -> Option<Place>
    ensures { result ≡ standing_at places.now index }
{
    match places.get(index) {
        None => None,
        Some(place) => *place,
    }
}

pub(crate) fn number_of(places: &[Option<Place>], index: u32) -> Option<u32>
    ensures { result ≡ number_of places.now index }
{
    match place_of(places, index as usize) {
        None => None,
        Some((_file, number)) => Some(number),
    }
}

/// The first places, and the others.
pub(crate) fn split(places: &[Option<Place>], count: usize) -> (&[Option<Place>], &[Option<Place>])
    ensures front { result.0.now ≡ take count places.now }
    ensures back { result.1.now ≡ drop count places.now }
{
    if count <= places.len() {
        places.split_at(count)
    } else {
        (places, &[])
    }
}
