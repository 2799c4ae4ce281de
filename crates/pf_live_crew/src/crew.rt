//! Runs of workers.
ghost use Rattle.std.specs.Prelude.{◌≡◌, ◌<◌, ◌≤◌, List, [], IfErr, IfOk, vec_capacity, vec_len};
ghost use Rattle.std.specs.VecDeque.{deque_len};
ghost use Rattle.pf_live_crew.specs.Places.{ArePlaces, Became, Each, IsPlace, Pairs};

use crate::works::{Turned, Works};
use pf_base::NoMemory;
use std::alloc::Global;
use std::collections::VecDeque;
use std::snapshot::Snapshot;
use std::sync::Wait;
use std::sync::atomic::{AtomicU64, Ordering};
use std::thread;
use std::thread::{Promise, PromisedHandle, Scope, SpawnError, Threads};

/// Takes a worker's turns until it ends.
pub fn drive<R: Wait, C, T: Works<C>>(rt: &R, context: &C, worker: &mut T)
    requires { T.fits context.now worker.old }
    ensures fits { T.fits context.now worker.new }
    ensures goes { T.goes context.now worker.old worker.new }
{
    // Counted before all looks since it last waited. Calls that came before the first one are none to wait for.
    let mut heard = 0;
    // What it did since then may have left it more to do, wherever it has looked already.
    let mut went = false;
    for _ in rt.forever() {
        match worker.turn(rt, context) {
            Turned::Went => went = true,
            Turned::Looks => {}
            Turned::Waits if went => went = false,
            Turned::Waits => heard = worker.rest(rt, context, heard),
            Turned::Ends => break,
        }
    }
}

/// What a worker that ran in a thread has become.
#[derive(Drop)]
struct Becomes<C, T> {
    context: Snapshot<C>,
    was: Snapshot<T>,
}

impl<C, T: Works<C>> Promise<T> for Becomes<C, T> {
    ghost kept_by = { λ p r. T.fits p.context.value r × T.goes p.context.value p.was.value r };
}

/// Where a worker is: in a thread that was started, or here, where none could be.
#[derive(Drop)]
enum Place<C, T: Works<C>> {
    There(PromisedHandle<T, Becomes<C, T>>),
    Here(T),
}

/// What a thread of a worker runs. Where no thread could be started for the place `refused`, its worker comes back at once.
fn driven<R: Wait, C, T: Works<C>>(
    rt: &R,
    context: &C,
    refused: &AtomicU64,
    place: u64,
    mut worker: T,
) -> T
    requires { T.fits context.now worker }
    ensures fits { T.fits context.now result }
    ensures goes { T.goes context.now worker result }
{
    if refused.load(Ordering::SeqCst) != place {
        drive(rt, context, &mut worker);
    }
    worker
}

/// Starts a thread for a worker. Where none can be started, the worker is here.
fn begin<'s, E, R: Wait + Sync, C: Sync, T: Works<C> + Send + 's>(
    scope: &'s Scope<'s, E>,
    rt: &'s R,
    context: &'s C,
    refused: &'s AtomicU64,
    place: u64,
    worker: T,
) -> Place<C, T>
    requires { T.fits context.now worker }
    ensures { IsPlace T.Works context.now worker result }
{
    let promise = Becomes {
        context: Snapshot::of(context),
        was: Snapshot::of(&worker),
    };
    let run = move || -> T
        requires { T.fits context.now worker }
        ensures { T.fits context.entry.now result × T.goes context.entry.now worker result }
    { driven(rt, context, refused, place, worker) };
    match scope.spawn_with(promise, run) {
        Ok(handle) => Place::There(handle),
        Err(SpawnError { value }) => {
            refused.store(place, Ordering::SeqCst);
            Place::Here(value())
        }
    }
}

/// Takes one turn of the worker, if it is here. Whether it may go on.
fn turn_here<R: Wait, C, T: Works<C>>(rt: &R, context: &C, place: &mut Place<C, T>) -> bool
    requires { (x : T) × IsPlace T.Works context.now x place.old }
    ensures { (x : T) → IsPlace T.Works context.now x place.old → IsPlace T.Works context.now x place.new }
{
    match place {
        Place::There(_) => false,
        Place::Here(worker) => !matches!(worker.turn(rt, context), Turned::Ends),
    }
}

/// Takes one turn of each worker that is here. Whether some may go on.
fn turn_all<R: Wait, C, T: Works<C>>(rt: &R, context: &C, places: &mut [Place<C, T>]) -> bool
    requires { (xs : List T) × ArePlaces T.Works context.now xs places.old }
    ensures { (xs : List T) → ArePlaces T.Works context.now xs places.old → ArePlaces T.Works context.now xs places.new }
{
    let mut go_on = false;
    for place in places {
        go_on |= turn_here(rt, context, place);
    }
    go_on
}

/// Takes turns of the workers that are here, one after another, until each has ended. It never sleeps, as one of them may wait for the next.
fn run_here<R: Wait, C, T: Works<C>>(
    rt: &R,
    context: &C,
    mut places: Vec<Place<C, T>>,
) -> Vec<Place<C, T>>
    requires { (xs : List T) × ArePlaces T.Works context.now xs places.items }
    ensures places { (xs : List T) → ArePlaces T.Works context.now xs places.items → ArePlaces T.Works context.now xs result.items }
    ensures len { vec_len result ≡ vec_len places }
{
    for _ in rt.forever() {
        if !turn_all(rt, context, &mut places) {
            break;
        }
        thread::yield_now();
    }
    places
}

/// Starts a thread for each worker, as far as they can be started.
fn begin_all<'s, E, R: Wait + Sync, C: Sync, T: Works<C> + Send + 's>(
    scope: &'s Scope<'s, E>,
    rt: &'s R,
    context: &'s C,
    refused: &'s AtomicU64,
    mut workers: VecDeque<T>,
    mut places: Vec<Place<C, T>>,
) -> Vec<Place<C, T>>
    requires fits { Each (T.fits context.now) workers.items }
    requires room { (places.items ≡ []) × (deque_len workers ≤ vec_capacity places) }
    ensures places { ArePlaces T.Works context.now workers.items result.items }
    ensures len { vec_len result ≡ deque_len workers }
{
    while let Some(worker) = workers.pop_front() {
        let number = places.len() as u64;
        places.push_reserved(begin(scope, rt, context, refused, number, worker));
    }
    places
}

/// What has become of the workers, in their order.
fn end_all<R: Threads, C, T: Works<C>>(rt: &R, places: Vec<Place<C, T>>, mut done: Vec<T>) -> Vec<T>
    requires room { (done.items ≡ []) × (vec_len places ≤ vec_capacity done) }
    ensures { (c : C) (xs : List T) → ArePlaces T.Works c xs places.items → Pairs (Became T.Works c) xs result.items }
{
    let mut rest = VecDeque::from_vec(places);
    while let Some(place) = rest.pop_front() {
        match place {
            Place::There(handle) => done.push_reserved(handle.join(rt)),
            Place::Here(worker) => done.push_reserved(worker),
        }
    }
    rest.destroy_empty();
    done
}

/// Takes the workers' turns until each has ended, each worker in a thread of its own where one can be started, and the others here, one
/// turn after another. They come back in their order. Where memory runs out (`NoMemory`, 1) before the first turn, the workers come
/// back as they were.
pub fn run_all<R: Threads + Wait + Sync, C: Sync, T: Works<C> + Send>(
    rt: &R,
    alloc: Global,
    context: &C,
    workers: Vec<T>,
) -> Result<Vec<T>, (Vec<T>, NoMemory)>
    requires { Each (T.fits context.now) workers.items }
    ensures done { IfOk result (λ done. Pairs (Became T.Works context.now) workers.items done.items) }
    ensures back { IfErr result (λ back. back.0 ≡ workers) }
{
    let Ok(places) = Vec::with_capacity(alloc, workers.len()) else {
        return Err((workers, NoMemory));
    };
    let Ok(done) = Vec::with_capacity(alloc, workers.len()) else {
        places.destroy_empty();
        return Err((workers, NoMemory));
    };
    let refused = AtomicU64::new(u64::MAX);
    Ok(thread::scope(
        thread::scope_env(),
        rt,
        |scope| -> Vec<T>
            requires { Each (T.fits context.now) workers.items × (places.items ≡ []) × (vec_len workers ≤ vec_capacity places) × (done.items ≡ [])
                × (vec_len workers ≤ vec_capacity done) }
            ensures { Pairs (Became T.Works context.entry.now) workers.items result.items }
        {
            let workers = VecDeque::from_vec(workers);
            let places = begin_all(scope, rt, context, &refused, workers, places);
            let places = run_here(rt, context, places);
            end_all(rt, places, done)
        },
    ))
}
