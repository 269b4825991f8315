// The status by value: codes 39 and 40, and what refusal 8 asks. Each is as model's definition says.
//
// Derives from liveliness_tracker.rs of ZeroDDS (DDS 1.4, 2.2.4.1).
// Copyright 2026 ZeroDDS Contributors. SPDX-License-Identifier: Apache-2.0. Changed: written anew in Rattle, the tracker's
// fields as the head by value, the reported changes as the sheet's bits.
#![tactic(auto)]

ghost use Rattle.std.specs.Prelude.{true, List, ◌≡◌, ℕ, ◌≤◌, pos, ◌+ℤ◌, ◌-ℤ◌};
ghost use Rattle.std.specs.Int.{w32};
ghost use Rattle.std.proofs.Common.{to_z};
ghost use Rattle.model.specs.declared.TrackerCall.TheVariants.{TakeStatus, Acknowledge};
ghost use Rattle.model.specs.WellFormed.{within, head_ok};
ghost use Rattle.model.specs.Writers.{acknowledgeable};
ghost use Rattle.writer_counts.specs.WriterCalls.{held_by};
ghost use Rattle.writer_status.specs.Status.{changed_head, KeepsWriters};

use model::{Called, Head, Sheet};

// What is acknowledged of a count once a part more is.
fn acknowledged_after(count: u32, change: i32, part: u32) -> i64
    requires { within (pos count -ℤ change) ≡ true }
    ensures { result ≡ (pos count -ℤ change) +ℤ to_z w32 part }
{
    let before = numbers::acknowledged(count, change);
    let more = numbers::of_bits(part);
    numbers::add_i64(before, more)
}

// What would be acknowledged lies within its bound.
fn part_within(count: u32, change: i32, part: u32) -> bool
    requires { within (pos count -ℤ change) ≡ true }
    ensures { result ≡ within ((pos count -ℤ change) +ℤ to_z w32 part) }
{
    numbers::within_bound(acknowledged_after(count, change, part))
}

// The change of a count once a part of it is acknowledged.
fn change_less(count: u32, change: i32, part: u32) -> i32
    requires { (count ≤ 128) × (within (pos count -ℤ change) ≡ true) × (within ((pos count -ℤ change) +ℤ to_z w32 part) ≡ true) }
    ensures { result ≡ pos count -ℤ ((pos count -ℤ change) +ℤ to_z w32 part) }
{
    numbers::change_of(count, acknowledged_after(count, change, part))
}

// Refusal 8: whether both acknowledged amounts stay within their bound.
pub fn acknowledge_ok(sheet: Sheet, head: Head) -> bool
    requires { head_ok head ≡ true }
    ensures { (pens writers lost : List ℕ) → result ≡ acknowledgeable Acknowledge sheet (held_by head pens writers lost) }
{
    part_within(head.alive, head.alive_change, sheet.first)
        && part_within(head.not_alive, head.not_alive_change, sheet.second)
}

// The head with both changes and the number of GUIDs in Lost anew.
pub fn with_changes(head: Head, lost_count: u32, alive_change: i32, not_alive_change: i32) -> Head
    ensures { result ≡ changed_head head lost_count alive_change not_alive_change }
{
    Head {
        lost_count,
        alive_change,
        not_alive_change,
        ..head
    }
}

// Code 39: the status, and its changes are no longer pending.
pub fn take_status(sheet: Sheet, head: Head) -> Called
    ensures { KeepsWriters TakeStatus sheet head result }
{
    Called {
        answer: answers::reporting(head_reads::head_status(head)),
        head: with_changes(head, head.lost_count, 0, 0),
    }
}

// Code 40: the reported changes were handed to a listener; what changed after stays pending.
pub fn acknowledge(sheet: Sheet, head: Head) -> Called
    requires { (head_ok head ≡ true) × (head.alive ≤ 128) × (head.not_alive ≤ 128)
        × ((pens writers lost : List ℕ) → acknowledgeable Acknowledge sheet (held_by head pens writers lost) ≡ true) }
    ensures { KeepsWriters Acknowledge sheet head result }
{
    let first = change_less(head.alive, head.alive_change, sheet.first);
    let second = change_less(head.not_alive, head.not_alive_change, sheet.second);
    Called {
        answer: answers::silent(),
        head: with_changes(head, head.lost_count, first, second),
    }
}
