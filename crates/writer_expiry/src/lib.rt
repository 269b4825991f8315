// The tracker calls on Lost: code 37, which declares the writers whose lease ran out, and code 38, which takes the list.
// Each does what model's `tracker_call` says; refusal 12 is answered here, with nothing written.
//
// Derives from liveliness_tracker.rs of ZeroDDS (DDS 1.4, 2.2.2.5.1.3, 2.2.3.9.2 and 2.2.4.1).
// Copyright 2026 ZeroDDS Contributors. SPDX-License-Identifier: Apache-2.0. Changed: written anew in Rattle, Lost as a
// list of GUIDs in lent bytes.
#![tactic(auto)]

ghost use Rattle.std.specs.Prelude.{true, ◌≡◌, ◌+◌, ◌≤◌, length};
ghost use Rattle.model.specs.State.{writers_in};
ghost use Rattle.model.specs.WellFormed.{lost_ok};
ghost use Rattle.writer_pass.specs.Passes.{dues_of};
ghost use Rattle.writer_counts.specs.WriterCalls.{WritersFormed};
ghost use Rattle.writer_expiry.specs.Losing.{expiry_tally, Expires, Takes};

use model::{Called, Guid, Head, Sheet};
use writer_pass::{Counts, Dues, Tally};

// The tally of an expiry: so many alive writers are not alive now.
fn tally_of(head: Head, gone: u32, last: Option<Guid>) -> Tally
    requires { (gone ≤ head.alive) × (head.not_alive + gone ≤ 128) }
    ensures { result ≡ expiry_tally head gone last }
{
    Tally {
        counts: Counts {
            alive: head.alive - gone,
            not_alive: head.not_alive + gone,
        },
        moved: gone,
        last,
    }
}

// What the expiry leaves, once there is room in Lost for the writers that expire.
fn expire_within(
    sheet: Sheet,
    head: Head,
    writers: &mut [u8],
    lost: &mut [u8],
    dues: Dues,
) -> Called
    requires { WritersFormed head writers.old × (length lost.old ≡ 4096) × (lost_ok head.lost_count lost.old ≡ true)
        × (dues ≡ dues_of sheet.a (writers_in head.writer_count writers.old)) × (head.lost_count + dues.gone ≤ 256) }
    ensures { Expires sheet head writers.old lost.old result writers.new lost.new }
{
    let last = writer_pass::declare(
        writers,
        head.writer_count as usize,
        sheet.a,
        lost,
        head.lost_count as usize,
        dues.gone,
        head.last_writer,
    );
    let tally = tally_of(head, dues.gone, last);
    let lost_count = head.lost_count + dues.gone;
    Called {
        answer: answers::saying_due(dues.gone != 0, dues.next),
        head: writer_counts::settle_head(head, head.writer_count, lost_count, tally),
    }
}

// Code 37: every alive writer whose lease has run out at the clock becomes not alive.
pub fn expire(sheet: Sheet, head: Head, writers: &mut [u8], lost: &mut [u8]) -> Called
    requires { WritersFormed head writers.old × (length lost.old ≡ 4096) × (lost_ok head.lost_count lost.old ≡ true) }
    ensures { Expires sheet head writers.old lost.old result writers.new lost.new }
{
    let dues = writer_pass::find_dues(writers, head.writer_count as usize, sheet.a);
    if 256 < head.lost_count + dues.gone {
        return answers::refused(12, head);
    }
    expire_within(sheet, head, writers, lost, dues)
}

// Code 38: the writers that expired since the latest such call go to Out, and Lost is empty.
pub fn take_lost(sheet: Sheet, head: Head, lost: &mut [u8], out: &mut [u8]) -> Called
    requires { (length lost.old ≡ 4096) × (lost_ok head.lost_count lost.old ≡ true) × (length out.old ≡ 4096) }
    ensures { Takes sheet head lost.old out.old result lost.new out.new }
{
    let size = head.lost_count as usize * 16;
    octets::copy(lost, 0, out, 0, size);
    octets::clear(lost, 0, size);
    Called {
        answer: answers::listing(head.lost_count),
        head: writer_status::with_changes(head, 0, head.alive_change, head.not_alive_change),
    }
}
