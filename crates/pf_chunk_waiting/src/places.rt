//! Reads in the order of their numbers, each in its place until it is dropped.
ghost use Rattle.std.specs.Prelude.{◌≡◌, ◌-◌, ◌<◌, ◌≤◌, ◌∷◌, ◌++◌, ◌==◌, [], IfNone, IfOk, IfSome, false, filter, length, true, vec_capacity, vec_len};
ghost use Rattle.std.specs.List.{filter_map, find};
ghost use Rattle.pf_entry.specs.Tables.{ascends};
ghost use Rattle.pf_chunk_waiting.specs.declared.places.ReadPlace.{ReadPlace};
ghost use Rattle.pf_chunk_waiting.specs.Waiters.{HaveNot, are_in_terms, has, waiting_numbers, without_read};
ghost use Rattle.pf_chunk_waiting.specs.Places.{AreOrdered, IsPlaceOfRead, place_numbers, those_waiting};

use crate::waiting::{Terms, Waiting, is_in_term};
use pf_base::NoMemory;
use std::alloc::Global;

/// A read, and whether it waits still.
#[derive(Clone, Copy)]
pub(crate) struct ReadPlace {
    pub(crate) read: Waiting,
    pub(crate) waits: bool,
}

/// The place of the read of this number, if it waits. The search takes a number of steps that grows as the logarithm of the places.
pub(crate) fn place_of(places: &[ReadPlace], number: u64) -> Option<usize>
    requires { ascends (place_numbers places.now) ≡ true }
    ensures within { IfSome result (λ place. place < length places.now) }
    ensures some { IfSome result (IsPlaceOfRead places.now number) }
    ensures none { IfNone result (HaveNot (those_waiting places.now) number) }
{
    let Ok(place) = places.binary_search_by_key(&number, |place| place.read.number) else {
        return None;
    };
    if places[place].waits {
        Some(place)
    } else {
        None
    }
}

/// The read of this number, if it waits.
fn read_of(places: &[ReadPlace], number: u64) -> Option<Waiting>
    requires { ascends (place_numbers places.now) ≡ true }
    ensures { result ≡ find (λ w. w.number == number) (those_waiting places.now) }
{
    let place = place_of(places, number)?;
    Some(places[place].read)
}

/// Whether a read of this number waits.
fn has_number(places: &[ReadPlace], number: u64) -> bool
    requires { ascends (place_numbers places.now) ≡ true }
    ensures { result ≡ has (waiting_numbers (those_waiting places.now)) number }
{
    place_of(places, number).is_some()
}

/// Those of these numbers that reads which wait have, each once, in ascending order.
fn numbers_among(alloc: Global, places: &[ReadPlace], numbers: &[u64]) -> Result<Vec<u64>, NoMemory>
    requires { ascends (place_numbers places.now) ≡ true }
    ensures { IfOk result (λ among. among.items ≡ filter (has numbers.now) (waiting_numbers (those_waiting places.now))) }
{
    let waiting = numbers
        .iter()
        .copied()
        .filter(|number| has_number(places, *number));
    let mut among: Vec<u64> = waiting.collect(alloc)?;
    among.sort_unstable();
    among.dedup();
    Ok(among)
}

/// The reads that wait and have one of these numbers, in the order of their numbers. It goes through these numbers alone, and
/// where there are none takes no step.
pub(crate) fn reads_among(
    alloc: Global,
    places: &[ReadPlace],
    numbers: &[u64],
) -> Result<Vec<Waiting>, NoMemory>
    requires { ascends (place_numbers places.now) ≡ true }
    ensures { IfOk result (λ reads. reads.items ≡ filter (λ w. has numbers.now w.number) (those_waiting places.now)) }
{
    if numbers.is_empty() {
        return Ok(Vec::new(alloc));
    }
    let among = numbers_among(alloc, places, numbers)?;
    let reads = among
        .iter()
        .copied()
        .filter_map(|number| read_of(places, number))
        .collect(alloc)?;
    Ok(reads)
}

/// All reads that wait, in their order.
pub(crate) fn all_reads(alloc: Global, places: &[ReadPlace]) -> Result<Vec<Waiting>, NoMemory>
    ensures { IfOk result (λ reads. reads.items ≡ those_waiting places.now) }
{
    let reads = places
        .iter()
        .filter(|place| place.waits)
        .map(|place| place.read)
        .collect(alloc)?;
    Ok(reads)
}

/// Whether each read that waits is in the term of its server.
pub(crate) fn are_in_terms(terms: &Terms, places: &[ReadPlace]) -> bool
    ensures { result ≡ are_in_terms terms.now (those_waiting places.now) }
{
    places
        .iter()
        .filter(|place| place.waits)
        .map(|place| place.read)
        .all(|one| is_in_term(terms, &one))
}

/// Drops the reads that wait no more.
pub(crate) fn sweep(places: &mut Vec<ReadPlace>)
    ensures waiting { places.new.items ≡ filter (λ p. p.waits) places.old.items }
    ensures room { vec_capacity places.old - vec_len places.old ≤ vec_capacity places.new - vec_len places.new }
{
    places.retain(|place| place.waits);
}

/// Drops the reads that wait no more if one of them has this number or a greater one, so that a read of this number can stand last.
pub(crate) fn make_way(places: &mut Vec<ReadPlace>, number: u64)
    requires { AreOrdered places.old.items }
    ensures waiting { those_waiting places.new.items ≡ those_waiting places.old.items }
    ensures ordered { (p : ReadPlace) → p.waits ≡ true → p.read.number ≡ number → AreOrdered (places.new.items ++ p ∷ []) }
    ensures room { vec_capacity places.old - vec_len places.old ≤ vec_capacity places.new - vec_len places.new }
{
    if let Some(last) = places.last() {
        if number <= last.read.number {
            sweep(places);
        }
    }
}

/// The read in this place waits no more.
pub(crate) fn leave(places: &mut Vec<ReadPlace>, place: usize, number: u64)
    requires ascending { ascends (place_numbers places.old.items) ≡ true }
    requires place { IsPlaceOfRead places.old.items number place }
    ensures waiting { those_waiting places.new.items ≡ without_read number (those_waiting places.old.items) }
    ensures numbers { place_numbers places.new.items ≡ place_numbers places.old.items }
{
    places[place].waits = false;
}
