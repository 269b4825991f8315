// Head and buffers together: whether they are well formed, and what a call leaves of the head.
//
// Derives from instance_tracker.rs and liveliness_tracker.rs of ZeroDDS.
// Copyright 2026 ZeroDDS Contributors. SPDX-License-Identifier: Apache-2.0. Changed: written anew in Rattle, with the state
// lent as head and buffers.
#![tactic(auto)]

ghost use Rattle.std.specs.Prelude.{List, ◌≡◌, ℕ, ◌*◌, length};
ghost use Rattle.model.specs.Call.{lent_of};
ghost use Rattle.model.specs.WellFormed.{well_formed};
ghost use Rattle.call_laws.specs.Heads.{called, head_with};

use model::{Answer, Called, Head, InstanceHandle};

// Whether head and buffers are well formed, for the instance places that the head says.
pub fn state_ok(head: Head, pens: &[u8], writers: &[u8], lost: &[u8]) -> bool
    requires { (length pens.now ≡ head.places * 512) × (length writers.now ≡ 5120) × (length lost.now ≡ 4096) }
    ensures { (out : List ℕ) → result ≡ well_formed head.places (lent_of head pens.now writers.now lost.now out) }
{
    if !writer_validity::head_ok(head) {
        return false;
    }
    let places = head.places as usize;
    let count = head.instance_count as usize;
    if !instance_table::table_ok(pens, places, count, head.next_handle.0) {
        return false;
    }
    if !writer_validity::writers_ok(head, writers, head.writer_count as usize) {
        return false;
    }
    writer_validity::lost_ok(lost, head.lost_count as usize)
}

// What a call on the instances leaves: another count of them and another next handle.
pub fn with_instances(answer: Answer, head: Head, count: u32, next: InstanceHandle) -> Called
    ensures { result ≡ called answer (head_with head count next) }
{
    Called {
        answer,
        head: Head {
            instance_count: count,
            next_handle: next,
            ..head
        },
    }
}
