//! Counts of modules with all their instances, once for each module.
//!
//! The counts begin at 0. Each module is counted once, behind those that it instances. Then a sweep
//! raises each count to what those of its instances' modules give; once a sweep raises none, they are
//! right, whatever the order was. No count goes beyond one past the greatest limit.
ghost use Rattle.std.specs.Prelude.{◌≡◌, ◌≤◌, ◌<◌, ℕ, length, slice_index, IfOk, true, false, vec_len};
ghost use Rattle.fir_flat.specs.Modules.{own_signals, targets_of, Ranked};
ghost use Rattle.fir_flat.specs.Writing.{CountsSignals};
ghost use Rattle.fir_flat.specs.Measures.{own_weight};
ghost use Rattle.fir_flat.specs.Counts.{cut};
ghost use Rattle.fir_flat.specs.Homes.{next_count, next_at, room, Lower, recounted, rises, count, IsRanked, AreHomes};

use crate::counts::sum;
use crate::directory::Directory;
use crate::order::instances_first;
use crate::own::tally_of;
use std::alloc::Global;
use tb_base::Memory;

/// A module: what it counts itself, and the places of its instances' modules.
#[derive(Drop)]
pub(crate) struct Home {
    pub(crate) own: u64,
    pub(crate) instances: Vec<usize>,
}

/// The count of one module over those of its instances' homes.
fn count_of(home: &Home, counts: &[u64]) -> u64
    ensures { result ≡ next_count counts.now home.now }
{
    let mut total = sum(home.own, 0);
    for instance in &home.instances {
        total = sum(total, count_at(counts, *instance));
    }
    total
}

pub(crate) fn count_at(counts: &[u64], number: usize) -> u64
    ensures { result ≡ slice_index counts.now number }
{
    if number < counts.len() {
        counts[number]
    } else {
        0
    }
}

/// Counts one module anew, and says whether its count rose.
fn recount(homes: &[Home], number: usize, counts: &mut [u64]) -> bool
    requires at { number < length homes.now }
    requires long { length counts.old ≡ length homes.now }
    ensures value { counts.new ≡ recounted homes.now number counts.old }
    ensures rose { result ≡ rises homes.now number counts.old }
{
    let total = count_at_place(homes, number, counts);
    if counts[number] < total {
        counts[number] = total;
        return true;
    }
    false
}

fn count_at_place(homes: &[Home], number: usize, counts: &[u64]) -> u64
    ensures { result ≡ next_at homes.now counts.now number }
{
    match homes.get(number) {
        Some(home) => count_of(home, counts),
        None => 0,
    }
}

/// Counts all homes once, the last first, and says whether a count rose.
fn sweep(homes: &[Home], counts: &mut [u64]) -> bool
    requires ranked { (rank : ℕ → ℕ) × IsRanked rank homes.now }
    requires long { length counts.old ≡ length homes.now }
    requires lower { Lower homes.now counts.old }
    ensures lower { Lower homes.now counts.new }
    ensures rose { result ≡ true → room counts.new < room counts.old }
    ensures met { result ≡ false → (k : ℕ) → k < length homes.now → next_at homes.now counts.new k ≤ slice_index counts.new k }
{
    let mut rose = false;
    let mut number = homes.len();
    while number > 0 {
        number -= 1;
        if recount(homes, number, counts) {
            rose = true;
        }
    }
    rose
}

/// Counts the home at a place anew, if there is one.
fn recount_at(homes: &[Home], place: usize, counts: &mut [u64])
    requires ranked { (rank : ℕ → ℕ) × IsRanked rank homes.now }
    requires long { length counts.old ≡ length homes.now }
    requires lower { Lower homes.now counts.old }
    ensures { Lower homes.now counts.new }
{
    if place >= homes.len() {
        return;
    }
    recount(homes, place, counts);
}

/// Counts the homes at these places, one behind the other.
fn recount_each(homes: &[Home], places: &[usize], counts: &mut [u64])
    requires ranked { (rank : ℕ → ℕ) × IsRanked rank homes.now }
    requires long { length counts.old ≡ length homes.now }
    requires lower { Lower homes.now counts.old }
    ensures { Lower homes.now counts.new }
{
    for place in places {
        recount_at(homes, *place, counts);
    }
}

/// Counts that are none too great. Each home is counted once, behind those of its instances, so that
/// mostly none is too small either.
fn first_counts(alloc: Global, homes: &[Home]) -> Result<Vec<u64>, Memory>
    requires { (rank : ℕ → ℕ) × IsRanked rank homes.now }
    ensures long { IfOk result (λ counts. vec_len counts ≡ length homes.now) }
    ensures lower { IfOk result (λ counts. Lower homes.now counts.items) }
{
    let places = instances_first(alloc, homes)?;
    let mut counts = zeros(alloc, homes.len())?;
    recount_each(homes, &places, &mut counts);
    Ok(counts)
}

/// The count of each module, cut at one past the limit. The time is linear in the number of instances.
pub(crate) fn capped_counts(alloc: Global, homes: &[Home]) -> Result<Vec<u64>, Memory>
    requires { (rank : ℕ → ℕ) × IsRanked rank homes.now }
    ensures { IfOk result (λ counts. (k : ℕ) → slice_index counts.items k ≡ cut (count homes.now k)) }
{
    let mut counts = first_counts(alloc, homes)?;
    loop {
        if !sweep(homes, &mut counts) {
            return Ok(counts);
        }
    }
}

fn zeros(alloc: Global, n: usize) -> Result<Vec<u64>, Memory>
    ensures { IfOk result (λ v. (vec_len v ≡ n) × ((k : ℕ) → slice_index v.items k ≡ 0)) }
{
    let mut v = Vec::new(alloc);
    for _ in 0..n {
        v.push(0)?;
    }
    Ok(v)
}

/// The modules by their signals.
pub(crate) fn signal_homes(alloc: Global, modules: &Directory) -> Result<Vec<Home>, Memory>
    ensures { IfOk result (λ hs. AreHomes (own_signals modules.now) modules.now modules.now hs.items) }
{
    let mut homes = Vec::new(alloc);
    for home in modules.modules() {
        let tally = tally_of(alloc, modules, home)?;
        homes.push(Home {
            own: sum(tally.signals, 0),
            instances: tally.instances,
        })?;
    }
    Ok(homes)
}

/// The modules by their parts.
pub(crate) fn part_homes(alloc: Global, modules: &Directory) -> Result<Vec<Home>, Memory>
    ensures { IfOk result (λ hs. AreHomes (own_weight modules.now) modules.now modules.now hs.items) }
{
    let mut homes = Vec::new(alloc);
    for home in modules.modules() {
        let tally = tally_of(alloc, modules, home)?;
        homes.push(Home {
            own: sum(tally.parts, 0),
            instances: tally.instances,
        })?;
    }
    Ok(homes)
}

/// For each module the signals of an instance of it. The time is linear in the size of the modules'
/// text, but for the look-ups of fields.
pub(crate) fn signal_counts(alloc: Global, modules: &Directory) -> Result<Vec<u64>, Memory>
    requires { (rank : ℕ → ℕ) × Ranked rank (targets_of modules.now) (length modules.now) }
    ensures { IfOk result (λ counts. CountsSignals modules.now counts.items) }
{
    let homes = signal_homes(alloc, modules)?;
    let counts = capped_counts(alloc, &homes)?;
    Ok(counts)
}
