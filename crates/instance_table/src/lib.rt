// The instance table in the lent bytes: its well-formedness, where an instance stands, and an instance replaced, put in and
// the last ones taken out. The number of places is a parameter.
//
// Derives from instance_tracker.rs of ZeroDDS.
// Copyright 2026 ZeroDDS Contributors. SPDX-License-Identifier: Apache-2.0. Changed: written anew in Rattle, with the map of
// instances as a table of records in lent bytes.
#![tactic(auto)]

ghost use Rattle.std.specs.Prelude.{◌≡◌, ℕ, ◌+◌, ◌*◌, ◌<◌, ◌≤◌, ◌≢◌, true, ◌&&◌, List, ◌∷◌, ◌++◌, map, length, take, drop, slice_index, slice_set};
ghost use Rattle.model.specs.Guids.{num};
ghost use Rattle.model.specs.Instances.{has_handle};
ghost use Rattle.model.specs.Reads.{used_in, table_ok};
ghost use Rattle.model.specs.State.{instance_key, instances_in};
ghost use Rattle.model.specs.Tables.{all, rising};
ghost use Rattle.model.specs.WellFormed.{instance_ok, other_handle, handle_below, handles_distinct, kinds_ok, instance_table_ok};
ghost use Rattle.tables.specs.Found.{found_in};
ghost use Rattle.tables.specs.Places.{place_of};
ghost use Rattle.instance_table.specs.Laid.{handle_at, Laid};

use model::{Answer, Guid, Instance, InstanceHandle};

// What a call on the table leaves by value.
#[derive(Clone, Copy)]
pub struct TableCall {
    pub answer: Answer,
    pub count: u32,
    pub next_handle: InstanceHandle,
}

// ---- well-formedness

// The handle of record i, as a number.
fn number_at(t: &[u8], i: usize) -> u64
    requires { i * 512 + 512 ≤ length t.now }
    ensures { result ≡ handle_at t.now i }
{
    octets::get_u64(t, i * 512 + 16)
}

// The place of the first of n instances whose handle is that number, n where none is.
fn first_numbered(t: &[u8], n: usize, number: u64) -> usize
    requires { n * 512 ≤ length t.now }
    ensures within { result ≤ n }
    ensures before { (j : ℕ) → j < result → handle_at t.now j ≢ number }
    ensures here { result < n → handle_at t.now result ≡ number }
{
    for i in 0..n {
        if number_at(t, i) == number {
            return i;
        }
    }
    n
}

// Whether none of the first n instances has the handle h.
fn is_unused(t: &[u8], n: usize, h: u64) -> bool
    requires { n * 512 ≤ length t.now }
    ensures { result ≡ all (other_handle h) (instances_in n t.now) }
{
    first_numbered(t, n, h) == n
}

// The handles of the first instances are noted in hs, as numbers.
fn note(t: &[u8], hs: &mut [u64])
    requires { length hs.old * 512 ≤ length t.now }
    ensures { (j : ℕ) → j < length hs.new → slice_index hs.new j ≡ handle_at t.now j }
{
    for (i, h) in hs.iter_mut().enumerate() {
        *h = number_at(t, i);
    }
}

// The same as handles_ok, by an order of the handles.
fn ordered_ok(t: &[u8], count: usize, next: u64) -> bool
    requires { (count ≤ 128) × (count * 512 ≤ length t.now) }
    ensures { result ≡ (all (handle_below next) (instances_in count t.now) && handles_distinct (instances_in count t.now)) }
{
    let mut numbers = [0; 128];
    let hs = &mut numbers[..count];
    note(t, hs);
    if !distinct_handles::within(hs, next) {
        return false;
    }
    distinct_handles::distinct(hs)
}

// Whether the handles of the first count instances are from 1 to below next, and distinct. A handle that differs modulo
// 1,024 from all before it needs no comparison. The others are compared one by one, until that took more than an order of
// all handles takes.
fn handles_ok(t: &[u8], count: usize, next: u64) -> bool
    requires { count * 512 ≤ length t.now }
    ensures { result ≡ (all (handle_below next) (instances_in count t.now) && handles_distinct (instances_in count t.now)) }
{
    let mut met = [false; 1024];
    let mut scanned = 0usize;
    for i in 0..count {
        let h = number_at(t, i);
        if h == 0 {
            return false;
        }
        if next <= h {
            return false;
        }
        let r = (h % 1024) as usize;
        if met[r] {
            if (1280 < scanned) & (count <= 128) {
                return ordered_ok(t, count, next);
            }
            if !is_unused(t, i, h) {
                return false;
            }
            scanned = scanned.wrapping_add(i);
        }
        met[r] = true;
    }
    true
}

// Whether each of the first count records is well formed by itself.
fn records_ok(t: &[u8], count: usize) -> bool
    requires { count * 512 ≤ length t.now }
    ensures { result ≡ (kinds_ok count t.now && all instance_ok (instances_in count t.now)) }
{
    for k in 0..count {
        if !instance_validity::record_ok(instance_decoding::record_at(t, k)) {
            return false;
        }
    }
    true
}

// Whether the table is well formed, with so many instances and that next handle.
pub fn table_ok(t: &[u8], places: usize, count: usize, next: u64) -> bool
    requires { length t.now ≡ places * 512 }
    ensures { result ≡ instance_table_ok places count next t.now }
{
    if places < count {
        return false;
    }
    if !zeros::zero_from(t, count * 512) {
        return false;
    }
    if !records_ok(t, count) {
        return false;
    }
    if !tables::keys_rise(t, 512, count) {
        return false;
    }
    handles_ok(t, count, next)
}

// How many records stand before the first whose handle is 0.
pub fn used(t: &[u8], places: usize) -> usize
    requires { length t.now ≡ places * 512 }
    ensures { result ≡ used_in places t.now }
{
    first_numbered(t, places, 0)
}

// Whether a table that is lent alone is well formed: some head makes it so.
pub fn lone_table_ok(t: &[u8], places: usize) -> bool
    requires { length t.now ≡ places * 512 }
    ensures { result ≡ table_ok places t.now }
{
    let count = used(t, places);
    table_ok(t, places, count, 9223372036854775808)
}

// ---- where an instance stands

// The place of the key among the first count instances, or the place where its instance would go in.
pub fn find_key(t: &[u8], count: usize, key: Guid) -> Result<usize, usize>
    requires { (count ≤ 128) × (count * 512 ≤ length t.now) × (rising instance_key (instances_in count t.now) ≡ true) }
    ensures { result ≡ found_in (map instance_key (instances_in count t.now)) (num key) }
{
    tables::find(t, 512, count, key)
}

// The place of the first of count instances that has the handle, count where none has it.
pub fn find_handle(t: &[u8], count: usize, h: InstanceHandle) -> usize
    requires { count * 512 ≤ length t.now }
    ensures { result ≡ place_of (has_handle h) (instances_in count t.now) }
{
    first_numbered(t, count, h.0)
}

// ---- the table changes. Each contract speaks of whatever list of instances the table is the layout of

// The instance at place i becomes x.
pub fn replace(t: &mut [u8], i: usize, x: Instance)
    requires { (i * 512 + 512 ≤ length t.old) × (x.state.writers.len < 32) }
    ensures { (places : ℕ) (xs : List Instance) → Laid places xs t.old → i < length xs → Laid places (slice_set xs i x) t.new }
{
    instance_encoding::put_instance(t, i, x);
}

// x goes in at place at of the first count instances.
pub fn insert(t: &mut [u8], count: usize, at: usize, x: Instance)
    requires { (at ≤ count) × (count * 512 + 512 ≤ length t.old) × (x.state.writers.len < 32) }
    ensures { (places : ℕ) (xs : List Instance) → Laid places xs t.old → length xs ≡ count → count < places → Laid places (take at xs ++ x ∷ drop at xs) t.new }
{
    tables::open_gap(t, 512, at, count);
    instance_encoding::put_instance(t, at, x);
}

// Of the first count instances only the first kept stay: the places behind them are cleared.
pub fn truncate(t: &mut [u8], kept: usize, count: usize)
    requires { (kept ≤ count) × (count * 512 ≤ length t.old) }
    ensures { (places : ℕ) (xs : List Instance) → Laid places xs t.old → length xs ≡ count → Laid places (take kept xs) t.new }
{
    octets::clear(t, kept * 512, (count - kept) * 512);
}
