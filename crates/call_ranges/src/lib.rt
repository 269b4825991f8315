// The calls by the range of their code, on buffers of their lengths, with the instance places that the head says: refusal 3,
// then the call of the code.
//
// Derives from instance_tracker.rs and liveliness_tracker.rs of ZeroDDS.
// Copyright 2026 ZeroDDS Contributors. SPDX-License-Identifier: Apache-2.0. Changed: written anew in Rattle, with the state
// lent as head and buffers.
#![tactic(auto)]

ghost use Rattle.std.specs.Prelude.{◌≡◌, ◌≤◌};
ghost use Rattle.model.specs.Call.{coded, lent_of, left_of};
ghost use Rattle.model.specs.Calls.{last_instance, last_tracker, last_joined, call_of_code};
ghost use Rattle.call_ranges.specs.Lengths.{Lengths};

use model::{Called, Head, Sheet};

// The codes of the calls on instances.
pub fn instances(
    s: Sheet,
    head: Head,
    pens: &mut [u8],
    writers: &[u8],
    lost: &[u8],
    out: &mut [u8],
) -> Called
    requires { Lengths (lent_of head pens.old writers.now lost.now out.old) × (1 ≤ s.code) × (s.code ≤ last_instance) }
    ensures { left_of result pens.new writers.now lost.now out.new
        ≡ coded head.places (call_of_code s.code) s (lent_of head pens.old writers.now lost.now out.old) }
{
    let c = instance_rules::instance_call(s.code);
    if !lent_state::state_ok(head, pens, writers, lost) {
        return answers::refused(3, head);
    }
    instance_calls::instance_turn(c, s, head, pens, out, head.places as usize)
}

// The codes of the calls on writers.
pub fn tracker(
    s: Sheet,
    head: Head,
    pens: &[u8],
    writers: &mut [u8],
    lost: &mut [u8],
    out: &mut [u8],
) -> Called
    requires { Lengths (lent_of head pens.now writers.old lost.old out.old) × (32 ≤ s.code) × (s.code ≤ last_tracker) }
    ensures { left_of result pens.now writers.new lost.new out.new
        ≡ coded head.places (call_of_code s.code) s (lent_of head pens.now writers.old lost.old out.old) }
{
    let c = call_codes::tracker_call(s.code);
    if !lent_state::state_ok(head, pens, writers, lost) {
        return answers::refused(3, head);
    }
    writer_calls::tracker_turn(c, s, head, writers, lost, out)
}

// The codes of the joined calls.
pub fn joined(
    s: Sheet,
    head: Head,
    pens: &mut [u8],
    writers: &mut [u8],
    lost: &mut [u8],
    out: &mut [u8],
) -> Called
    requires { Lengths (lent_of head pens.old writers.old lost.old out.old) × (48 ≤ s.code) × (s.code ≤ last_joined) }
    ensures { left_of result pens.new writers.new lost.new out.new
        ≡ coded head.places (call_of_code s.code) s (lent_of head pens.old writers.old lost.old out.old) }
{
    let c = call_codes::joined_call(s.code);
    if !lent_state::state_ok(head, pens, writers, lost) {
        return answers::refused(3, head);
    }
    joined_calls::joined_turn(c, s, head, pens, writers, lost, out)
}
