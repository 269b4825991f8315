// The writer set of an instance in its 256 bytes: the writers of a list are taken out where they stand, in one walk over
// both, which rise. Where a GUID stands in the list is guessed, and the guess is looked at before it is believed.
// Derives from instance_tracker.rs of ZeroDDS.
// Copyright 2026 ZeroDDS Contributors. SPDX-License-Identifier: Apache-2.0. Changed: written anew in Rattle, over records in
// lent bytes.
#![tactic(auto)]

ghost use Rattle.std.specs.Prelude.{[], ◌∷◌, ◌≡◌, ◌+◌, ◌*◌, ◌/◌, ◌≤◌, ◌<◌, length, drop};
ghost use Rattle.octets.specs.Patch.{patch};
ghost use Rattle.model.specs.Guids.{num, same, guid_at, guids_in, guid_bytes, guids_bytes};
ghost use Rattle.tables.specs.Found.{lower_bound, found_in};
ghost use Rattle.tables.specs.Keys.{keys};
ghost use Rattle.tables.specs.Places.{place_of};
ghost use Rattle.writer_set.specs.Places.{padded};
ghost use Rattle.writer_set_bytes.specs.Others.{others};
ghost use Rattle.writer_set_bytes.specs.Lists.{gones_in, Listed};
ghost use Rattle.writer_set_bytes.specs.Walks.{Filled, beside_at, walked, stayed};

use model::Guid;
use std::cmp::Ordering;

// The writers that are gone: their GUIDs in bytes, which rise, and a guess of where each of them stands.
#[derive(Clone, Copy)]
pub struct Gone<'a> {
    pub list: &'a [u8],
    pub guesses: &'a [u8; 1024],
    pub ghost listed: { Listed list.now },
}

// A walk over a set and a list: the places in both, and how many of the set stay.
#[derive(Clone, Copy)]
pub struct Walk {
    pub i: usize,
    pub j: usize,
    pub k: usize,
}

// ---- the writers of a list taken out of a set

// How the GUID of place j of the list compares with g; greater where the list has ended.
fn stands(gone: &[u8], j: usize, g: Guid) -> Ordering
    requires { j ≤ 128 }
    ensures { result ≡ beside_at gone.now j g }
{
    if gone.len() / 16 <= j {
        return Ordering::Greater;
    }
    let there = guid::guid_at(gone, j * 16);
    // by two tests: `cmp` would make a number that the walk takes apart again
    if guid::is_same(there, g) {
        return Ordering::Equal;
    }
    if guid::is_less(there, g) {
        return Ordering::Less;
    }
    Ordering::Greater
}

// The GUID g of place i goes to place k, where it may stand already.
fn stay(set: &mut [u8], i: usize, k: usize, g: Guid)
    requires { (k ≤ i) × (i * 16 + 16 ≤ length set.old) × (g ≡ guid_at set.old (i * 16)) }
    ensures { set.new ≡ patch set.old (k * 16) 16 (guid_bytes g) }
{
    if k != i {
        guid::put_guid(set, k * 16, g);
    }
}

// One turn of the walk.
fn walk_on(set: &mut [u8], gone: &[u8], w: Walk) -> Walk
    requires { (w.k ≤ w.i) × (w.i * 16 + 16 ≤ length set.old) × (length set.old ≤ 256) × (w.j ≤ 128) }
    ensures { (result ≡ walked (beside_at gone.now w.j (guid_at set.old (w.i * 16))) w)
        × (set.new ≡ stayed (beside_at gone.now w.j (guid_at set.old (w.i * 16))) w set.old) }
{
    let g = guid::guid_at(set, w.i * 16);
    match stands(gone, w.j, g) {
        Ordering::Less => Walk { j: w.j + 1, ..w },
        Ordering::Equal => Walk {
            i: w.i + 1,
            j: w.j + 1,
            ..w
        },
        Ordering::Greater => {
            stay(set, w.i, w.k, g);
            Walk {
                i: w.i + 1,
                k: w.k + 1,
                ..w
            }
        }
    }
}

// Of the first n GUIDs of the set those of the list from place `from` on are taken out, and nil is put behind the others.
// Both rise, so one walk over them tells.
fn walk_through(set: &mut [u8], n: usize, gone: &Gone, from: usize) -> usize
    requires { Filled n set.old × (from ≤ length gone.now.list.now / 16)
        × (others (drop from (gones_in gone.now.list.now)) (guids_in n set.old) ≡ others (gones_in gone.now.list.now) (guids_in n set.old)) }
    ensures { (result ≡ length (others (gones_in gone.now.list.now) (guids_in n set.old)))
        × (set.new ≡ guids_bytes (padded (others (gones_in gone.now.list.now) (guids_in n set.old)))) }
{
    let mut w = Walk {
        i: 0,
        j: from,
        k: 0,
    };
    // a turn goes on in the set, in the list or in both
    while w.i < n {
        w = walk_on(set, gone.list, w);
    }
    let k = w.k;
    octets::clear(set, k * 16, (n - k) * 16);
    k
}

// ---- one writer taken out of a set

// Whether the GUID of place i is g. The lower halves differ more often, so they are compared first.
fn is_at(set: &[u8], i: usize, g: Guid) -> bool
    requires { (i < 128) × (i * 16 + 16 ≤ length set.now) }
    ensures { result ≡ same (guid_at set.now (i * 16)) g }
{
    octets::get_u64(set, i * 16 + 8) == g.lo && octets::get_u64(set, i * 16) == g.hi
}

// The place of g among the first n GUIDs of the set, n where it is none of them.
fn place_of(set: &[u8], n: usize, g: Guid) -> usize
    requires { (n ≤ 128) × (n * 16 ≤ length set.now) }
    ensures { result ≡ place_of (λ (x : Guid). same x g) (guids_in n set.now) }
{
    for i in 0..n {
        if is_at(set, i, g) {
            return i;
        }
    }
    n
}

// Of the first n GUIDs of the set g is taken out, if it is there.
fn keep_all_but(set: &mut [u8], n: usize, g: Guid) -> usize
    requires { Filled n set.old }
    ensures { (result ≡ length (others (g ∷ []) (guids_in n set.old)))
        × (set.new ≡ guids_bytes (padded (others (g ∷ []) (guids_in n set.old)))) }
{
    let p = place_of(set, n, g);
    if p == n {
        return n;
    }
    tables::close_gap(set, 16, p, n);
    n - 1
}

// ---- a GUID looked for in a list

// Which of the guesses is that of g. By both halves and by a prime, so that GUIDs that differ in few bytes, or by equal
// steps, seldom share one.
fn guess_at(g: Guid) -> usize
    ensures { result < 1024 }
{
    ((g.hi % 1021 + g.lo % 1021) % 1024) as usize
}

// The place of each GUID of the list is noted as its guess; where several share one, the place of the last. Nothing is
// promised of the guesses: find_listed looks before it believes.
pub fn note_guesses(gone: &[u8], guesses: &mut [u8; 1024])
    requires { Listed gone.now }
{
    for j in 0..gone.len() / 16 {
        guesses[guess_at(guid::guid_at(gone, j * 16))] = j as u8;
    }
}

// The place of g in the list, or where it would stand: its guess where g stands there, else by a search. So any guesses will
// do.
pub fn find_listed(gone: &[u8], guesses: &[u8; 1024], g: Guid) -> Result<usize, usize>
    requires { Listed gone.now }
    ensures { result ≡ found_in (keys 16 (length gone.now / 16) gone.now) (num g) }
{
    let m = gone.len() / 16;
    let p = guess_at(g);
    let j = usize::from(guesses[p]);
    if j < m {
        let there = guid::guid_at(gone, j * 16);
        if guid::is_same(there, g) {
            return Ok(j);
        }
    }
    tables::find(gone, 16, m, g)
}

// How many of the list stand before g.
fn lower_listed(gone: &Gone, g: Guid) -> usize
    ensures { result ≡ lower_bound (keys 16 (length gone.now.list.now / 16) gone.now.list.now) (num g) }
{
    find_listed(gone.list, gone.guesses, g).unwrap_or_else(|j| j)
}

// ---- either

// Of the first n GUIDs of the set those of the list are taken out, and nil is put behind the others. Most lists have one.
pub fn keep_others(set: &mut [u8], n: usize, gone: &Gone) -> usize
    requires { Filled n set.old }
    ensures { (result ≡ length (others (gones_in gone.now.list.now) (guids_in n set.old)))
        × (set.new ≡ guids_bytes (padded (others (gones_in gone.now.list.now) (guids_in n set.old)))) }
{
    let m = gone.list.len() / 16;
    if m == 1 {
        let g = guid::guid_at(gone.list, 0);
        return keep_all_but(set, n, g);
    }
    let first = guid::guid_at(set, 0);
    let from = lower_listed(gone, first);
    walk_through(set, n, gone, from)
}
