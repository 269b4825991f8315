// The tracker's counts by value: what a turn of the writers leaves of the head, and its tally.
//
// Derives from liveliness_tracker.rs of ZeroDDS.
// Copyright 2026 ZeroDDS Contributors. SPDX-License-Identifier: Apache-2.0. Changed: written anew in Rattle, the tracker's
// fields as the head by value.
#![tactic(auto)]

ghost use Rattle.std.specs.Prelude.{true, ◌≡◌, ◌+◌, ◌-◌, ◌≤◌, pos, ◌-ℤ◌};
ghost use Rattle.model.specs.State.{class_of, is_alive_class, is_not_alive_class};
ghost use Rattle.model.specs.WellFormed.{within};
ghost use Rattle.writer_counts.specs.Turns.{CountsFit, settled_head, called_by, still_tally, shifted_tally, gone_tally, departs_tally};

use model::{Called, Guid, Head, Writer};
use writer_pass::{Counts, Tally};

// The change of a count that was `count` with `change`, and is `after`: what was acknowledged of it stays.
pub fn change_after(count: u32, change: i32, after: u32) -> i32
    requires { (after ≤ 128) × (within (pos count -ℤ change) ≡ true) }
    ensures { result ≡ pos after -ℤ (pos count -ℤ change) }
{
    numbers::change_of(after, numbers::acknowledged(count, change))
}

// The head after a turn of the writers: counts, changes and last writer follow from its tally, the acknowledged amounts
// stay.
pub fn settle_head(head: Head, writer_count: u32, lost_count: u32, tally: Tally) -> Head
    requires { CountsFit head tally }
    ensures { result ≡ settled_head head writer_count lost_count tally }
{
    let Counts { alive, not_alive } = tally.counts;
    Head {
        writer_count,
        lost_count,
        alive,
        not_alive,
        alive_change: change_after(head.alive, head.alive_change, alive),
        not_alive_change: change_after(head.not_alive, head.not_alive_change, not_alive),
        last_writer: tally.last,
        changes: head.changes.wrapping_add(u64::from(tally.moved)),
        ..head
    }
}

// What a turn of the writers leaves by value: whether a class changed, and the head.
pub fn called(head: Head, writer_count: u32, tally: Tally) -> Called
    requires { CountsFit head tally }
    ensures { result ≡ called_by head writer_count tally }
{
    Called {
        answer: answers::saying(tally.moved != 0),
        head: settle_head(head, writer_count, head.lost_count, tally),
    }
}

// The tally of a turn that changes no class.
pub fn still(head: Head) -> Tally
    ensures { result ≡ still_tally head }
{
    Tally {
        counts: Counts {
            alive: head.alive,
            not_alive: head.not_alive,
        },
        moved: 0,
        last: head.last_writer,
    }
}

// The tally of a turn that changes the class of one writer.
fn shifted(alive: u32, not_alive: u32, guid: Guid) -> Tally
    ensures { result ≡ shifted_tally alive not_alive guid }
{
    Tally {
        counts: Counts { alive, not_alive },
        moved: 1,
        last: Some(guid),
    }
}

// The tally of a turn that takes the writer out.
pub fn gone(head: Head, w: Writer) -> Tally
    requires { (is_alive_class (class_of w.liveliness.state) ≡ true → 1 ≤ head.alive)
        × (is_not_alive_class (class_of w.liveliness.state) ≡ true → 1 ≤ head.not_alive) }
    ensures { result ≡ gone_tally head w }
{
    if writer_effects::counts_alive(w.liveliness.state) {
        return shifted(head.alive - 1, head.not_alive, w.guid);
    }
    if writer_effects::counts_not_alive(w.liveliness.state) {
        return shifted(head.alive, head.not_alive - 1, w.guid);
    }
    still(head)
}

// The tally of a turn in which the writer departs.
pub fn departs(head: Head, w: Writer) -> Tally
    requires { (is_alive_class (class_of w.liveliness.state) ≡ true → 1 ≤ head.alive) × (head.not_alive ≤ 128) }
    ensures { result ≡ departs_tally head w }
{
    if writer_effects::counts_alive(w.liveliness.state) {
        return shifted(head.alive - 1, head.not_alive + 1, w.guid);
    }
    still(head)
}
