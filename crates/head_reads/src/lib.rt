// The reads of the head alone: the liveliness status and the count of changes. What they mean stands in model's Reads.
//
// Derives from liveliness_tracker.rs of ZeroDDS (status and changes).
// Copyright 2026 ZeroDDS Contributors. SPDX-License-Identifier: Apache-2.0. Changed: written anew in Rattle, over the head by
// value.
#![tactic(auto)]

ghost use Rattle.std.specs.Prelude.{◌≡◌};
ghost use Rattle.model.specs.Reads.{head_alone, head_status, status_read, changes_read};
ghost use Rattle.model.specs.Writers.{publication};
ghost use Rattle.head_reads.specs.Sizes.{sizes_ok};

use model::{ChangesRead, Guid, Head, InstanceHandle, LivelinessChangedStatus, StatusRead};

// ---- the head

// Whether the head's counts of records can be those of some buffers.
fn sizes_ok(h: Head) -> bool
    ensures { result ≡ sizes_ok h }
{
    let places = h.places as u32;
    let instances = h.instance_count;
    let writers = h.writer_count;
    if places < instances {
        return false;
    }
    if h.next_handle.0 <= instances as u64 {
        return false;
    }
    if 128 < writers {
        return false;
    }
    if (writers as u64) < h.alive as u64 + h.not_alive as u64 {
        return false;
    }
    h.lost_count <= 256
}

// Whether the head's figure is one of the two, and some buffers make it well formed.
fn head_alone(h: Head) -> bool
    ensures { result ≡ head_alone h }
{
    let figure = h.places;
    if !instance_places::figure_ok(figure) {
        return false;
    }
    if !writer_validity::head_ok(h) {
        return false;
    }
    sizes_ok(h)
}

// ---- the reads

// The handle of the last writer, nil where there is none.
fn publication_handle(last: Option<Guid>) -> InstanceHandle
    ensures { result ≡ publication last }
{
    // named at its call, as .ci/unreached goes by calls
    last.map_or(instance_handle::nil(), |g| instance_handle::from_guid(g))
}

// The liveliness status (DDS 1.4, 2.2.4.1) that the head holds, which it leaves as it is.
pub fn head_status(h: Head) -> LivelinessChangedStatus
    ensures { result ≡ head_status h }
{
    let last = h.last_writer;
    let handle = publication_handle(last);
    LivelinessChangedStatus {
        alive_count: h.alive,
        not_alive_count: h.not_alive,
        alive_count_change: h.alive_change,
        not_alive_count_change: h.not_alive_change,
        last_publication_handle: handle,
    }
}

// The liveliness status of a head, refused as 3 where its figure is another or no buffers make the head well formed.
pub fn status(h: Head) -> StatusRead
    ensures { result ≡ status_read h }
{
    if !head_alone(h) {
        return StatusRead::Refused(3);
    }
    StatusRead::Is(head_status(h))
}

// How many changes of class a head has counted, refused in the same case.
pub fn changes(h: Head) -> ChangesRead
    ensures { result ≡ changes_read h }
{
    if !head_alone(h) {
        return ChangesRead::Refused(3);
    }
    ChangesRead::Is(h.changes)
}
