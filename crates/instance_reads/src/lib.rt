// The reads of instances: both should_deliver_ filters, last_delivered_ts, next_handle_after, the handle at a position, the
// holder in force, the writer lookup, left_writerless and would_leave_writerless. The public functions ask nothing of what
// they are lent: any bytes get an answer. Inner functions take the number of places, which the length of the table tells.
// Refusals, lowest first: 1 a table that is neither 32 nor 128 places long, a list of GUIDs that is no multiple of 16 bytes
// or above 4,096, an Out that is not 4,096 bytes; 3 a table that is not well formed; 4 nanoseconds of 10^9 or more.
//
// Derives from instance_tracker.rs of ZeroDDS.
// Copyright 2026 ZeroDDS Contributors. SPDX-License-Identifier: Apache-2.0. Changed: written anew in Rattle, over a table of
// records in lent bytes.
#![tactic(auto)]

ghost use Rattle.std.specs.Prelude.{true, cond, List, map, ◌≡◌, ℕ, ◌+◌, ◌*◌, ◌/◌, ◌%◌, ◌≤◌, ◌<◌, length, drop};
ghost use Rattle.octets.specs.Octets.{put};
ghost use Rattle.model.specs.Guids.{num, guids_in};
ghost use Rattle.model.specs.InstanceRecord.{instance_of};
ghost use Rattle.model.specs.Instances.{has_key};
ghost use Rattle.model.specs.Reads.{used_in, table_of, table_refusal, time_refusal, filter_read, order_read, last_delivered_read, handle_found, first, next_handle_read, walk_read, holder_in_force, writes as writesIn, lookup_read, view_in, among, left_with, list_refusal, would_leave_read, left_read, left_out};
ghost use Rattle.model.specs.Sets.{has};
ghost use Rattle.model.specs.State.{places_in, instance_key};
ghost use Rattle.model.specs.Tables.{find, all};
ghost use Rattle.model.specs.Times.{no_time, time_bits};
ghost use Rattle.model.specs.WellFormed.{instance_ok};
ghost use Rattle.tables.specs.Found.{found_in};
ghost use Rattle.instance_decoding.specs.Parts.{record_at};
ghost use Rattle.tables.specs.Places.{place_of};
ghost use Rattle.instance_reads.specs.HolderPlaces.{no_place, stored_at, holder_place, bytes_at};
ghost use Rattle.instance_reads.specs.Looked.{times_in, ListedBy};

use model::{
    Decision, FoundHandle, FoundTime, Guid, InstanceHandle, Listing, MaybeTime, Time, Times,
};

// Where a stored holder stands in the table: its first byte and its length.
#[derive(Clone, Copy)]
pub struct HolderPlace {
    pub stored: bool,
    pub offset: usize,
    pub len: u16,
}

// ---- refusals

// The number of the refusal for a table of so many places, 0 for none.
pub fn refusal_of(pens: &[u8], places: usize) -> u8
    requires { places ≤ 128 }
    ensures { result ≡ table_refusal places pens.now }
{
    if pens.len() != places * 512 {
        return 1;
    }
    if instance_table::lone_table_ok(pens, places) {
        0
    } else {
        3
    }
}

// The number of the refusal for the table and a time, 0 for none.
fn time_refusal(pens: &[u8], places: usize, time: Time) -> u8
    requires { places ≤ 128 }
    ensures { result ≡ time_refusal places pens.now time }
{
    let number = refusal_of(pens, places);
    if number != 0 {
        return number;
    }
    if time.nanosec < 1_000_000_000 { 0 } else { 4 }
}

// ---- by key

// The place of the key in a table that is not refused.
fn locate(pens: &[u8], places: usize, key: Guid) -> Result<usize, usize>
    requires { (places ≤ 128) × (table_refusal places pens.now ≡ 0) }
    ensures { result ≡ found_in (map instance_key (table_of places pens.now)) (num key) }
{
    let count = instance_table::used(pens, places);
    instance_table::find_key(pens, count, key)
}

// No time.
fn no_time() -> MaybeTime
    ensures { result ≡ no_time }
{
    MaybeTime {
        present: false,
        sec: 0,
        nanosec: 0,
    }
}

// The times of the key's instance, none where it is unknown.
fn times_of(pens: &[u8], places: usize, key: Guid) -> Times
    requires { (places ≤ 128) × (table_refusal places pens.now ≡ 0) }
    ensures { result ≡ times_in (find (has_key key) (table_of places pens.now)) }
{
    match locate(pens, places, key) {
        Ok(i) => {
            let x = instance_decoding::instance_at(pens, i);
            let y = x.state;
            let times = y.times;
            times
        }
        Err(_) => {
            let n = no_time();
            Times {
                last_sample: n,
                last_delivered: n,
                last_filter: n,
                disposed_at: n,
                no_writers_at: n,
                owner_at: n,
            }
        }
    }
}

// A caller's time as the records hold it.
fn bits_of_time(time: Time) -> MaybeTime
    ensures { result ≡ time_bits time }
{
    let sec = numbers::bits_of(time.sec);
    let nanosec = time.nanosec;
    MaybeTime {
        present: true,
        sec: sec,
        nanosec: nanosec,
    }
}

// TIME_BASED_FILTER (DDS 1.4, 2.2.3.12): whether a sample of the key passes, by the last that passed.
pub fn should_deliver_under_time_based_filter(
    pens: &[u8],
    key: Guid,
    sample_ts: Time,
    min_separation: u64,
) -> Decision
    ensures { result ≡ filter_read (places_in pens.now) pens.now key sample_ts min_separation }
{
    let places = instance_places::places_in(pens);
    let number = time_refusal(pens, places, sample_ts);
    if number != 0 {
        return Decision::Refused(number);
    }
    let times = times_of(pens, places, key);
    let last = times.last_filter;
    let candidate = bits_of_time(sample_ts);
    Decision::Is(sample_time::filter_admits(last, candidate, min_separation))
}

// DESTINATION_ORDER (DDS 1.4, 2.2.3.17): whether a sample of the key is in order; by reception every sample is.
pub fn should_deliver_under_destination_order(
    pens: &[u8],
    key: Guid,
    source_ts: Time,
    by_source: bool,
) -> Decision
    ensures { result ≡ order_read (places_in pens.now) pens.now key source_ts by_source }
{
    let places = instance_places::places_in(pens);
    let number = time_refusal(pens, places, source_ts);
    if number != 0 {
        return Decision::Refused(number);
    }
    if !by_source {
        return Decision::Is(true);
    }
    let times = times_of(pens, places, key);
    let last = times.last_delivered;
    let candidate = bits_of_time(source_ts);
    Decision::Is(sample_time::order_admits(last, candidate))
}

// The source time of the key's last delivered sample.
pub fn last_delivered_ts(pens: &[u8], key: Guid) -> FoundTime
    ensures { result ≡ last_delivered_read (places_in pens.now) pens.now key }
{
    let places = instance_places::places_in(pens);
    let number = refusal_of(pens, places);
    if number != 0 {
        return FoundTime::Refused(number);
    }
    let times = times_of(pens, places, key);
    let last = times.last_delivered;
    let present = last.present;
    if !present {
        return FoundTime::Missing;
    }
    let sec = numbers::of_bits(last.sec);
    let nanosec = last.nanosec;
    let time = Time {
        sec: sec,
        nanosec: nanosec,
    };
    FoundTime::Is(time)
}

// ---- by handle and by position

// The handle at a position of a table that is not refused, none from its end on.
fn handle_in(pens: &[u8], places: usize, position: usize) -> FoundHandle
    requires { table_refusal places pens.now ≡ 0 }
    ensures { result ≡ handle_found 0 (first (drop position (table_of places pens.now))) }
{
    let count = instance_table::used(pens, places);
    if count <= position {
        return FoundHandle::Missing;
    }
    let handle = instance_decoding::handle_at(pens, position);
    FoundHandle::Is(handle)
}

// The handle of the instance behind the one that has the previous handle, in key order; of the first behind nil.
pub fn next_handle_after(pens: &[u8], previous: InstanceHandle) -> FoundHandle
    ensures { result ≡ next_handle_read (places_in pens.now) pens.now previous }
{
    let places = instance_places::places_in(pens);
    let number = refusal_of(pens, places);
    if number != 0 {
        return FoundHandle::Refused(number);
    }
    let h = previous.0;
    if h == 0 {
        return handle_in(pens, places, 0);
    }
    let count = instance_table::used(pens, places);
    let place = instance_table::find_handle(pens, count, previous);
    handle_in(pens, places, place + 1)
}

// The handle of the instance at a position, in key order: what a walker gives at that position.
pub fn handle_at_position(pens: &[u8], position: usize) -> FoundHandle
    ensures { result ≡ walk_read (places_in pens.now) pens.now position }
{
    let places = instance_places::places_in(pens);
    let number = refusal_of(pens, places);
    if number != 0 {
        return FoundHandle::Refused(number);
    }
    handle_in(pens, places, position)
}

// ---- the holder in force

// Nowhere in the table.
fn nowhere() -> HolderPlace
    ensures { result ≡ no_place }
{
    HolderPlace {
        stored: false,
        offset: 0,
        len: 0,
    }
}

// Where the stored holder of instance i stands.
fn holder_at(pens: &[u8], i: usize) -> HolderPlace
    requires { i * 512 + 512 ≤ length pens.now }
    ensures { result ≡ stored_at i (instance_of (record_at pens.now i)).state.holder }
{
    let o = i * 512;
    let f = octets::get_u16(pens, o + 24);
    if f / 32 % 2 != 1 {
        return nowhere();
    }
    let n = octets::get_u16(pens, o + 26);
    HolderPlace {
        stored: true,
        offset: o + 112,
        len: n,
    }
}

// Where the bytes from which the key was made are stored; nowhere too where the table would be refused.
pub fn holder_place(pens: &[u8], key: Guid) -> HolderPlace
    ensures place { result ≡ holder_place (places_in pens.now) pens.now key }
    ensures force { (offered : List ℕ) → bytes_at result pens.now offered ≡ holder_in_force (places_in pens.now) pens.now key offered }
{
    let places = instance_places::places_in(pens);
    if refusal_of(pens, places) != 0 {
        return nowhere();
    }
    match locate(pens, places, key) {
        Ok(i) => holder_at(pens, i),
        Err(_) => nowhere(),
    }
}

// The bytes from which the key was made: those stored, else, and where the table would be refused, all that are offered.
pub fn holder_in_force<'a>(pens: &'a [u8], key: Guid, offered: &'a [u8]) -> &'a [u8]
    ensures { result.now ≡ holder_in_force (places_in pens.now) pens.now key offered.now }
{
    let p = holder_place(pens, key);
    let stored = p.stored;
    let start = p.offset;
    let n = p.len;
    if !stored {
        return offered;
    }
    let end = start + n as usize;
    &pens[start..end]
}

// ---- GUIDs

// Whether the GUID is among the first n of a list.
fn has_guid(list: &[u8], n: usize, g: Guid) -> bool
    requires { n * 16 ≤ length list.now }
    ensures { result ≡ has g (guids_in n list.now) }
{
    let mut i = 0;
    while i < n {
        if guid::is_same(guid::guid_at(list, i * 16), g) {
            return true;
        }
        i += 1;
    }
    false
}

// Whether an instance is alive and has the GUID among its writers.
fn writes(r: &[u8], g: Guid) -> bool
    requires { (length r.now ≡ 512) × (instance_ok (instance_of r.now) ≡ true) }
    ensures { result ≡ writesIn g (instance_of r.now) }
{
    let flags = octets::get_u16(r, 24);
    if 16384 <= flags {
        return false;
    }
    has_guid(&r[256..], (flags % 32) as usize, g)
}

// The place of the first alive instance with the GUID among its writers, count where there is none.
fn writer_place(pens: &[u8], places: usize, count: usize, g: Guid) -> usize
    requires { (table_refusal places pens.now ≡ 0) × (count ≡ used_in places pens.now) }
    ensures { result ≡ place_of (writesIn g) (table_of places pens.now) }
{
    let mut place = 0;
    while place < count {
        let o = place * 512;
        let e = o + 512;
        if writes(&pens[o..e], g) {
            return place;
        }
        place += 1;
    }
    place
}

// The handle of the first alive instance in key order that has the GUID among its writers.
pub fn writer_lookup(pens: &[u8], guid: Guid) -> FoundHandle
    ensures { result ≡ lookup_read (places_in pens.now) pens.now guid }
{
    let places = instance_places::places_in(pens);
    let number = refusal_of(pens, places);
    if number != 0 {
        return FoundHandle::Refused(number);
    }
    let count = instance_table::used(pens, places);
    let place = writer_place(pens, places, count, guid);
    handle_in(pens, places, place)
}

// ---- left without writers

// Whether a mask of views takes an instance: NEW is 1, NOT_NEW 2.
fn view_in(view_states: u32, view_new: bool) -> bool
    ensures { result ≡ view_in view_states view_new }
{
    if view_new {
        view_states % 2 == 1
    } else {
        view_states / 2 % 2 == 1
    }
}

// Whether each of the n writers of an instance is among the m GUIDs gone.
fn all_gone(r: &[u8], n: usize, gone: &[u8], m: usize) -> bool
    requires { (256 + n * 16 ≤ length r.now) × (m * 16 ≤ length gone.now) }
    ensures { result ≡ all (among (guids_in m gone.now)) (guids_in n (drop 256 r.now)) }
{
    let mut i = 0;
    while i < n {
        if !has_guid(gone, m, guid::guid_at(r, 256 + i * 16)) {
            return false;
        }
        i += 1;
    }
    true
}

// Whether an alive instance of one of the views has writers, and the m GUIDs gone are all of them.
fn left_with(r: &[u8], gone: &[u8], m: usize, view_states: u32) -> bool
    requires { (length r.now ≡ 512) × (instance_ok (instance_of r.now) ≡ true) × (m * 16 ≤ length gone.now) }
    ensures { result ≡ left_with (guids_in m gone.now) view_states (instance_of r.now) }
{
    let f = octets::get_u16(r, 24);
    if 16384 <= f {
        return false;
    }
    if !view_in(view_states, f / 8192 % 2 == 1) {
        return false;
    }
    let n = (f % 32) as usize;
    if n == 0 {
        return false;
    }
    all_gone(r, n, gone, m)
}

// The number of the refusal for the table and a list of GUIDs, 0 for none.
fn list_refusal(pens: &[u8], places: usize, gone: &[u8]) -> u8
    requires { places ≤ 128 }
    ensures { result ≡ list_refusal places pens.now gone.now }
{
    if gone.len() % 16 != 0 {
        return 1;
    }
    if 4096 < gone.len() {
        return 1;
    }
    refusal_of(pens, places)
}

// The place of the first instance that losing the m GUIDs gone leaves without writers, count where there is none.
fn left_place(
    pens: &[u8],
    places: usize,
    count: usize,
    gone: &[u8],
    m: usize,
    view_states: u32,
) -> usize
    requires { (table_refusal places pens.now ≡ 0) × (count ≡ used_in places pens.now) × (m * 16 ≤ length gone.now) }
    ensures { result ≡ place_of (left_with (guids_in m gone.now) view_states) (table_of places pens.now) }
{
    let mut i = 0;
    while i < count {
        let o = i * 512;
        let e = o + 512;
        if left_with(&pens[o..e], gone, m, view_states) {
            return i;
        }
        i += 1;
    }
    i
}

// Whether losing the GUIDs gone would leave some instance of the views without writers.
pub fn would_leave_writerless(pens: &[u8], gone: &[u8], view_states: u32) -> Decision
    ensures { result ≡ would_leave_read (places_in pens.now) pens.now gone.now view_states }
{
    let places = instance_places::places_in(pens);
    let number = list_refusal(pens, places, gone);
    if number != 0 {
        return Decision::Refused(number);
    }
    let count = instance_table::used(pens, places);
    let m = gone.len() / 16;
    let place = left_place(pens, places, count, gone, m, view_states);
    Decision::Is(place < count)
}

// Where instance i is left without writers its handle is written behind the k in Out. How many are there now.
fn list_left(
    pens: &[u8],
    i: usize,
    gone: &[u8],
    m: usize,
    view_states: u32,
    out: &mut [u8],
    k: usize,
) -> usize
    requires { (i * 512 + 512 ≤ length pens.now) × (instance_ok (instance_of (record_at pens.now i)) ≡ true) × (m * 16 ≤ length gone.now) × (k * 8 + 8 ≤ length out.old) }
    ensures count { result ≡ k + cond (left_with (guids_in m gone.now) view_states (instance_of (record_at pens.now i))) 1 0 }
    ensures written { out.new ≡ cond (left_with (guids_in m gone.now) view_states (instance_of (record_at pens.now i)))
        (put 8 out.old (k * 8) (instance_of (record_at pens.now i)).handle.0) out.old }
{
    let o = i * 512;
    let e = o + 512;
    if !left_with(&pens[o..e], gone, m, view_states) {
        return k;
    }
    let h = instance_decoding::handle_at(pens, i);
    octets::put_u64(out, k * 8, h.0);
    k + 1
}

// The handles of the instances that losing the m GUIDs gone leaves without writers go to the front of Out, in key order.
fn list_all_left(
    pens: &[u8],
    places: usize,
    gone: &[u8],
    m: usize,
    view_states: u32,
    out: &mut [u8],
) -> usize
    requires { (table_refusal places pens.now ≡ 0) × (m * 16 ≤ length gone.now) × (places * 8 ≤ length out.old) }
    ensures { ListedBy (left_with (guids_in m gone.now) view_states) (table_of places pens.now) out.old result out.new }
{
    let count = instance_table::used(pens, places);
    let mut i = 0;
    let mut k = 0;
    while i < count {
        k = list_left(pens, i, gone, m, view_states, out, k);
        i += 1;
    }
    k
}

// The handles of the instances of the views that losing the GUIDs gone leaves without writers, in key order, 8 bytes each
// from the front of Out. How many there are.
pub fn left_writerless(pens: &[u8], gone: &[u8], view_states: u32, out: &mut [u8]) -> Listing
    ensures answer { result ≡ left_read (places_in pens.now) pens.now gone.now view_states out.old }
    ensures list { out.new ≡ left_out (places_in pens.now) pens.now gone.now view_states out.old }
{
    if out.len() != 4096 {
        return Listing::Refused(1);
    }
    let places = instance_places::places_in(pens);
    let number = list_refusal(pens, places, gone);
    if number != 0 {
        return Listing::Refused(number);
    }
    let m = gone.len() / 16;
    let n = list_all_left(pens, places, gone, m, view_states, out);
    Listing::Listed(n as u32)
}
