// The tracker calls on the writers alone, codes 32 to 36, over the lent writers, with the head
// by value. Each does what model's `tracker_call` says; refusal 11 is answered here, with nothing written.
//
// Derives from liveliness_tracker.rs of ZeroDDS (DDS 1.4, 2.2.3.11 and 2.2.4.1).
// Copyright 2026 ZeroDDS Contributors. SPDX-License-Identifier: Apache-2.0. Changed: written anew in Rattle, the tracked
// and the departed writers as ordered records in lent bytes.
#![tactic(auto)]

ghost use Rattle.std.specs.Prelude.{true, false, cond, ◌≡◌, ◌+◌, ◌-◌, ◌*◌, ◌<◌, take, drop, Ok, Err};
ghost use Rattle.octets.specs.Patch.{patch};
ghost use Rattle.model.specs.declared.TrackerCall.TheVariants.{Matched, Unmatched, LostWithParticipant, WriterAsserted, ParticipantAsserted};
ghost use Rattle.model.specs.Guids.{num};
ghost use Rattle.model.specs.Refusals.{clocks_used_by};
ghost use Rattle.model.specs.Tables.{all};
ghost use Rattle.model.specs.WellFormed.{clock_ok};
ghost use Rattle.model.specs.WriterRecord.{writer_of, writer_bytes};
ghost use Rattle.model.specs.Writers.{departed};
ghost use Rattle.tables.specs.Found.{found_in};
ghost use Rattle.tables.specs.Gaps.{closed};
ghost use Rattle.tables.specs.Keys.{keys};
ghost use Rattle.writer_counts.specs.Turns.{CountsFit, called_by, still_tally, gone_tally, departs_tally};
ghost use Rattle.writer_counts.specs.WriterCalls.{WritersFormed, Turns, leaving, Passable, assertion_on, automatic, asserted_table, asserted_tally};

use model::{Called, Head, Sheet, WriterState};
use writer_effects::Assertion;
use writer_pass::Counts;

// An assertion on the first count writers.
fn assert_on(head: Head, writers: &mut [u8], count: u32, a: Assertion) -> Called
    requires { Passable head count writers.old }
    ensures { (writers.new ≡ asserted_table a count writers.old)
        × (result ≡ called_by head count (asserted_tally head a count writers.old)) }
{
    let counts = Counts {
        alive: head.alive,
        not_alive: head.not_alive,
    };
    let tally = writer_pass::assert_writers(writers, count as usize, a, counts, head.last_writer);
    writer_counts::called(head, count, tally)
}

// Code 35: the writer asserted its own liveliness, which is a manual assertion of its participant too.
pub fn writer_asserted(sheet: Sheet, head: Head, writers: &mut [u8]) -> Called
    requires { WritersFormed head writers.old }
    ensures { Turns WriterAsserted sheet head writers.old result writers.new }
{
    let a = Assertion {
        guid: sheet.guid,
        named: true,
        manual: true,
        clock: sheet.a,
    };
    assert_on(head, writers, head.writer_count, a)
}

// Code 36: the participant of a prefix asserted its writers, manually or by running.
pub fn participant_asserted(sheet: Sheet, head: Head, writers: &mut [u8]) -> Called
    requires { WritersFormed head writers.old }
    ensures { Turns ParticipantAsserted sheet head writers.old result writers.new }
{
    let a = Assertion {
        guid: sheet.guid,
        named: false,
        manual: sheet.manual,
        clock: sheet.a,
    };
    assert_on(head, writers, head.writer_count, a)
}

// A turn that changes no class and leaves the writers as they are.
fn kept(head: Head) -> Called
    requires { CountsFit head (still_tally head) }
    ensures { result ≡ called_by head head.writer_count (still_tally head) }
{
    writer_counts::called(head, head.writer_count, writer_counts::still(head))
}

// The writer at place i is taken out.
fn removed(head: Head, writers: &mut [u8], i: usize) -> Called
    requires { WritersFormed head writers.old × (i < head.writer_count) }
    ensures { (writers.new ≡ closed 40 i head.writer_count writers.old)
        × (result ≡ called_by head (head.writer_count - 1) (gone_tally head (writer_of (take 40 (drop (i * 40) writers.old))))) }
{
    let w = writer_record::writer_at(writers, i);
    tables::close_gap(writers, 40, i, head.writer_count as usize);
    writer_counts::called(head, head.writer_count - 1, writer_counts::gone(head, w))
}

// Code 33 at the place of the writer's record: it is taken out unless it departed.
fn unmatched_at(sheet: Sheet, head: Head, writers: &mut [u8], i: usize) -> Called
    requires { WritersFormed head writers.old × (found_in (keys 40 head.writer_count writers.old) (num sheet.guid) ≡ Ok i) }
    ensures { Turns Unmatched sheet head writers.old result writers.new }
{
    let w = writer_record::writer_at(writers, i);
    if writer_effects::is_tracked(w.liveliness.state) {
        return removed(head, writers, i);
    }
    kept(head)
}

// The writer at place i departs: its record keeps GUID and state alone.
fn departed_at(head: Head, writers: &mut [u8], i: usize) -> Called
    requires { WritersFormed head writers.old × (i < head.writer_count) }
    ensures { (writers.new ≡ patch writers.old (i * 40) 40 (writer_bytes (departed (writer_of (take 40 (drop (i * 40) writers.old))).guid)))
        × (result ≡ called_by head head.writer_count (departs_tally head (writer_of (take 40 (drop (i * 40) writers.old))))) }
{
    let w = writer_record::writer_at(writers, i);
    writer_record::put_writer(writers, i, writer_effects::departed(w.guid));
    writer_counts::called(head, head.writer_count, writer_counts::departs(head, w))
}

// Code 34 at the place of the writer's record: an unasserted one is taken out, any other departs.
fn lost_at(sheet: Sheet, head: Head, writers: &mut [u8], i: usize) -> Called
    requires { WritersFormed head writers.old × (found_in (keys 40 head.writer_count writers.old) (num sheet.guid) ≡ Ok i) }
    ensures { Turns LostWithParticipant sheet head writers.old result writers.new }
{
    let w = writer_record::writer_at(writers, i);
    match w.liveliness.state {
        WriterState::Unasserted => removed(head, writers, i),
        WriterState::Alive | WriterState::NotAlive | WriterState::Departed => {
            departed_at(head, writers, i)
        }
    }
}

// Codes 33 and 34 at the place of the writer's record.
fn leave_at(lost: bool, sheet: Sheet, head: Head, writers: &mut [u8], i: usize) -> Called
    requires { WritersFormed head writers.old × (found_in (keys 40 head.writer_count writers.old) (num sheet.guid) ≡ Ok i) }
    ensures { Turns (leaving lost) sheet head writers.old result writers.new }
{
    if lost {
        return lost_at(sheet, head, writers, i);
    }
    unmatched_at(sheet, head, writers, i)
}

// Code 33: the writer is no longer matched. Code 34: so too, because its participant's lease ran out, which is no normal
// deletion.
pub fn leave(lost: bool, sheet: Sheet, head: Head, writers: &mut [u8]) -> Called
    requires { WritersFormed head writers.old }
    ensures { Turns (leaving lost) sheet head writers.old result writers.new }
{
    match tables::find(writers, 40, head.writer_count as usize, sheet.guid) {
        Ok(i) => leave_at(lost, sheet, head, writers, i),
        Err(_) => kept(head),
    }
}

// An automatic match then asserts, by the participant and by name.
fn match_asserts(sheet: Sheet, head: Head, writers: &mut [u8], count: u32) -> Called
    requires { Passable head count writers.old }
    ensures { (writers.new ≡ cond (automatic sheet) (asserted_table (assertion_on true false sheet) count writers.old) writers.old)
        × (result ≡ called_by head count (cond (automatic sheet) (asserted_tally head (assertion_on true false sheet) count writers.old) (still_tally head))) }
{
    if writer_effects::is_automatic(writer_record::kind_numbered(sheet.kind)) {
        let a = Assertion {
            guid: sheet.guid,
            named: true,
            manual: false,
            clock: sheet.a,
        };
        return assert_on(head, writers, count, a);
    }
    writer_counts::called(head, count, writer_counts::still(head))
}

// Code 32 at the place of the writer's record: a tracked one takes kind and lease, a departed one comes back.
fn match_again(sheet: Sheet, head: Head, writers: &mut [u8], i: usize) -> Called
    requires { WritersFormed head writers.old × (all clock_ok (clocks_used_by Matched sheet) ≡ true)
        × (found_in (keys 40 head.writer_count writers.old) (num sheet.guid) ≡ Ok i) }
    ensures { Turns Matched sheet head writers.old result writers.new }
{
    let w = writer_record::writer_at(writers, i);
    writer_record::put_writer(writers, i, writer_effects::matched_again(sheet, w));
    if writer_effects::is_tracked(w.liveliness.state) { // it asserts nothing
        return kept(head);
    }
    match_asserts(sheet, head, writers, head.writer_count)
}

// Code 32 where the GUID has no record: it goes in at place i, or every place is taken.
fn match_first(sheet: Sheet, head: Head, writers: &mut [u8], i: usize) -> Called
    requires { WritersFormed head writers.old × (all clock_ok (clocks_used_by Matched sheet) ≡ true)
        × (found_in (keys 40 head.writer_count writers.old) (num sheet.guid) ≡ Err i) }
    ensures { Turns Matched sheet head writers.old result writers.new }
{
    let count = head.writer_count;
    if 128 <= count {
        return answers::refused(11, head);
    }
    tables::open_gap(writers, 40, i, count as usize);
    writer_record::put_writer(writers, i, writer_effects::first_matched(sheet));
    match_asserts(sheet, head, writers, count + 1)
}

// Code 32: the writer matched, with the liveliness that it offers.
pub fn matched(sheet: Sheet, head: Head, writers: &mut [u8]) -> Called
    requires { WritersFormed head writers.old × (all clock_ok (clocks_used_by Matched sheet) ≡ true) }
    ensures { Turns Matched sheet head writers.old result writers.new }
{
    match tables::find(writers, 40, head.writer_count as usize, sheet.guid) {
        Ok(i) => match_again(sheet, head, writers, i),
        Err(i) => match_first(sheet, head, writers, i),
    }
}
