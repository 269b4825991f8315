// The public entries: every call on lent head and buffers, the fresh state, the reads, and the KeyHash. None has a
// `requires`: any bytes are answered, or refused with a number of documents 01 and 02 and nothing written.
//
// Derives from instance_tracker.rs and liveliness_tracker.rs of ZeroDDS.
// Copyright 2026 ZeroDDS Contributors. SPDX-License-Identifier: Apache-2.0. Changed: written anew in Rattle, with the state
// lent as head and buffers and every call behind one entry.
#![tactic(auto)]

ghost use Rattle.std.specs.Prelude.{cond, List, [], ◌≡◌, ℕ};
ghost use Rattle.model.specs.Call.{coded, call_of, lent_of, left_of};
ghost use Rattle.model.specs.Calls.{call_of_code};
ghost use Rattle.model.specs.State.{places_in};
ghost use Rattle.model.specs.Reads.{filter_read, order_read, last_delivered_read, next_handle_read, walk_read, holder_in_force, lookup_read, would_leave_read, left_read, left_out, status_read, changes_read, table_refusal, time_refusal, list_refusal, left_refusal, head_alone};
ghost use Rattle.read_answers.specs.Cases.{decision_answer, handle_answer, time_answer, listing_answer, status_answer, changes_answer};
ghost use Rattle.instance_reads.specs.HolderPlaces.{holder_place, bytes_at};
ghost use Rattle.key_hash.specs.KeyHash.{key_hash_of};
ghost use Rattle.wire_time.specs.WireTime.{wire_fraction_of, nanos_of};
ghost use Rattle.call_ranges.specs.Lengths.{Lengths};
ghost use Rattle.dcps.specs.Fresh.{fresh_head, fresh_of};

use instance_reads::HolderPlace;
use key_hash::KeyHashed;
use model::{
    Called, ChangesRead, Decision, FoundHandle, FoundTime, Guid, Head, InstanceHandle,
    LAST_INSTANCE, LAST_JOINED, LAST_TRACKER, Listing, Sheet, StatusRead, Time,
};
use wire_time::WireFraction;

// ---- every call

// A call on buffers of their lengths, for the instance places that the head says, by its code; there are no codes but those.
fn coded(
    s: Sheet,
    head: Head,
    pens: &mut [u8],
    writers: &mut [u8],
    lost: &mut [u8],
    out: &mut [u8],
) -> Called
    requires { Lengths (lent_of head pens.old writers.old lost.old out.old) }
    ensures { left_of result pens.new writers.new lost.new out.new
        ≡ coded head.places (call_of_code s.code) s (lent_of head pens.old writers.old lost.old out.old) }
{
    match s.code {
        1..=LAST_INSTANCE => call_ranges::instances(s, head, pens, writers, lost, out),
        32..=LAST_TRACKER => call_ranges::tracker(s, head, pens, writers, lost, out),
        48..=LAST_JOINED => call_ranges::joined(s, head, pens, writers, lost, out),
        _ => answers::refused(2, head),
    }
}

// A call: the sheet says which, the head and the buffers are the state that it is made on.
pub fn call(
    head: Head,
    sheet: &[u8],
    pens: &mut [u8],
    writers: &mut [u8],
    lost: &mut [u8],
    out: &mut [u8],
) -> Called
    ensures { left_of result pens.new writers.new lost.new out.new
        ≡ call_of sheet.now (lent_of head pens.old writers.old lost.old out.old) }
{
    if !instance_places::figure_ok(head.places) {
        return answers::refused(3, head);
    }
    let places = head.places as usize;
    if sheet.len() != 256 {
        return answers::refused(1, head);
    }
    if !instance_places::room_ok(places, pens.len(), writers.len(), lost.len()) {
        return answers::refused(1, head);
    }
    if out.len() != 4096 {
        return answers::refused(1, head);
    }
    let s = call_sheet::read_sheet(sheet);
    coded(s, head, pens, writers, lost, out)
}

// ---- the fresh state

// The head of the fresh state with so many instance places.
fn fresh_head(places: u16) -> Head
    ensures { result ≡ fresh_head places }
{
    Head {
        instance_count: 0,
        next_handle: InstanceHandle(1),
        writer_count: 0,
        lost_count: 0,
        alive: 0,
        not_alive: 0,
        alive_change: 0,
        not_alive_change: 0,
        last_writer: None,
        changes: 0,
        places,
    }
}

// The buffers become those of the fresh state, whose head comes back; the length of pens sets its number of instance places.
// Where a buffer has another length it is refused as 1.
pub fn fresh(pens: &mut [u8], writers: &mut [u8], lost: &mut [u8]) -> Called
    ensures { left_of result pens.new writers.new lost.new []
        ≡ fresh_of pens.old writers.old lost.old }
{
    let places = instance_places::places_in(pens);
    let head = fresh_head(places as u16);
    if !instance_places::room_ok(places, pens.len(), writers.len(), lost.len()) {
        return answers::refused(1, head);
    }
    octets::clear(pens, 0, places * 512);
    octets::clear(writers, 0, 5120);
    octets::clear(lost, 0, 4096);
    answers::refused(0, head)
}

// ---- the reads

// Whether a sample is delivered under the time-based filter (DDS 1.4, 2.2.3.12).
pub fn should_deliver_under_time_based_filter(
    pens: &[u8],
    key: Guid,
    sample_ts: Time,
    min_separation: u64,
) -> Decision
    ensures case { result ≡ filter_read (places_in pens.now) pens.now key sample_ts min_separation }
    ensures number { (decision_answer result).number ≡ time_refusal (places_in pens.now) pens.now sample_ts }
{
    instance_reads::should_deliver_under_time_based_filter(pens, key, sample_ts, min_separation)
}

// Whether a sample is delivered under the destination order (DDS 1.4, 2.2.3.17).
pub fn should_deliver_under_destination_order(
    pens: &[u8],
    key: Guid,
    source_ts: Time,
    by_source: bool,
) -> Decision
    ensures case { result ≡ order_read (places_in pens.now) pens.now key source_ts by_source }
    ensures number { (decision_answer result).number ≡ time_refusal (places_in pens.now) pens.now source_ts }
{
    instance_reads::should_deliver_under_destination_order(pens, key, source_ts, by_source)
}

// When a sample of the instance was delivered last.
pub fn last_delivered_ts(pens: &[u8], key: Guid) -> FoundTime
    ensures case { result ≡ last_delivered_read (places_in pens.now) pens.now key }
    ensures number { (time_answer result).number ≡ table_refusal (places_in pens.now) pens.now }
{
    instance_reads::last_delivered_ts(pens, key)
}

// The handle that follows another in the order of the keys; the first one behind nil.
pub fn next_handle_after(pens: &[u8], previous: InstanceHandle) -> FoundHandle
    ensures case { result ≡ next_handle_read (places_in pens.now) pens.now previous }
    ensures number { (handle_answer result).number ≡ table_refusal (places_in pens.now) pens.now }
{
    instance_reads::next_handle_after(pens, previous)
}

// The handle of the instance at a position.
pub fn handle_at_position(pens: &[u8], position: usize) -> FoundHandle
    ensures case { result ≡ walk_read (places_in pens.now) pens.now position }
    ensures number { (handle_answer result).number ≡ table_refusal (places_in pens.now) pens.now }
{
    instance_reads::handle_at_position(pens, position)
}

// Where the stored holder of the key stands in pens: for callers who can't be handed a slice.
pub fn holder_place(pens: &[u8], key: Guid) -> HolderPlace
    ensures place { result ≡ holder_place (places_in pens.now) pens.now key }
    ensures force { (offered : List ℕ) → bytes_at result pens.now offered ≡ holder_in_force (places_in pens.now) pens.now key offered }
{
    instance_reads::holder_place(pens, key)
}

// The stored holder of the key, or the one offered.
pub fn holder_in_force<'a>(pens: &'a [u8], key: Guid, offered: &'a [u8]) -> &'a [u8]
    ensures { result.now ≡ holder_in_force (places_in pens.now) pens.now key offered.now }
{
    instance_reads::holder_in_force(pens, key, offered)
}

// The first alive instance in key order that the writer writes.
pub fn writer_lookup(pens: &[u8], guid: Guid) -> FoundHandle
    ensures case { result ≡ lookup_read (places_in pens.now) pens.now guid }
    ensures number { (handle_answer result).number ≡ table_refusal (places_in pens.now) pens.now }
{
    instance_reads::writer_lookup(pens, guid)
}

// Whether the loss of the writers of a list would leave an instance without writers.
pub fn would_leave_writerless(pens: &[u8], gone: &[u8], view_states: u32) -> Decision
    ensures case { result ≡ would_leave_read (places_in pens.now) pens.now gone.now view_states }
    ensures number { (decision_answer result).number ≡ list_refusal (places_in pens.now) pens.now gone.now }
{
    instance_reads::would_leave_writerless(pens, gone, view_states)
}

// The handles of the instances that it would leave so, to the front of Out.
pub fn left_writerless(pens: &[u8], gone: &[u8], view_states: u32, out: &mut [u8]) -> Listing
    ensures answer { result ≡ left_read (places_in pens.now) pens.now gone.now view_states out.old }
    ensures number { (listing_answer result).number ≡ left_refusal (places_in pens.now) pens.now gone.now out.old }
    ensures list { out.new ≡ left_out (places_in pens.now) pens.now gone.now view_states out.old }
{
    instance_reads::left_writerless(pens, gone, view_states, out)
}

// The liveliness status (DDS 1.4, 2.2.4.1) that the head holds, which it leaves as it is.
pub fn status(head: Head) -> StatusRead
    ensures case { result ≡ status_read head }
    ensures number { (status_answer result).number ≡ cond (head_alone head) 0 3 }
{
    head_reads::status(head)
}

// How many changes of class the head has counted.
pub fn changes(head: Head) -> ChangesRead
    ensures case { result ≡ changes_read head }
    ensures number { (changes_answer result).number ≡ cond (head_alone head) 0 3 }
{
    head_reads::changes(head)
}

// ---- keys

// The key of an instance from its serialized key, whose type's largest size is stated (DDSI-RTPS 2.5, 9.6.4.8).
pub fn key_hash(serialized: &[u8], largest: u64) -> KeyHashed
    ensures { result ≡ key_hash_of serialized.now largest }
{
    key_hash::key_hash(serialized, largest)
}

// ---- wire time

// Nanoseconds as the fraction of a second that a stamp of RTPS carries, with the remainder of the division.
pub fn wire_fraction(nanosec: u32) -> WireFraction
    ensures { result ≡ wire_fraction_of nanosec }
{
    wire_time::wire_fraction(nanosec)
}

// The nanoseconds that a fraction and a remainder came from; of any other two, rounded down. 999,999,999 stands for a remainder
// that is not known, as of a stamp off the wire.
pub fn nanos_of(fraction: u32, remainder: u32) -> u32
    ensures { result ≡ nanos_of fraction remainder }
{
    wire_time::nanos_of(fraction, remainder)
}
