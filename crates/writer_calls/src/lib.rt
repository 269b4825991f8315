// Codes 32 to 40 on head and buffers, past refusals 1 to 3: what the sheet decides, then the call on the writers.
//
// Derives from liveliness_tracker.rs of ZeroDDS (DDS 1.4, 2.2.3.11 and 2.2.4.1).
// Copyright 2026 ZeroDDS Contributors. SPDX-License-Identifier: Apache-2.0. Changed: written anew in Rattle, with the state
// lent as head and buffers.
#![tactic(auto)]

ghost use Rattle.std.specs.Prelude.{true, List, ◌≡◌, ℕ, length};
ghost use Rattle.model.specs.Calls.{tracker};
ghost use Rattle.model.specs.Refusals.{sheet_refusal};
ghost use Rattle.model.specs.WellFormed.{head_ok, lost_ok};
ghost use Rattle.model.specs.Writers.{acknowledgeable_with};
ghost use Rattle.writer_counts.specs.WriterCalls.{WritersFormed, held_by};
ghost use Rattle.call_laws.specs.Entered.{TrackerJudged};

use model::{AcknowledgeUse, Called, Head, Sheet, TrackerCall};

// Whether both counts can take what is acknowledged of them, where a part is.
fn acknowledge_ok(acknowledges: AcknowledgeUse, s: Sheet, head: Head) -> bool
    requires { head_ok head ≡ true }
    ensures { (pens writers lost : List ℕ) → result ≡ acknowledgeable_with acknowledges s (held_by head pens writers lost) }
{
    match acknowledges {
        AcknowledgeUse::Nothing | AcknowledgeUse::Whole => true,
        AcknowledgeUse::Part => writer_status::acknowledge_ok(s, head),
    }
}

// The number of the refusal that the sheet of a call on writers meets, 0 for none.
fn tracker_refusal(c: TrackerCall, s: Sheet, head: Head) -> u8
    requires { head_ok head ≡ true }
    ensures { (pens writers lost : List ℕ) → result ≡ sheet_refusal (tracker c) s (held_by head pens writers lost) }
{
    let rule = call_codes::tracker_rule(c);
    let clocks = rule.clocks;
    let acknowledges = rule.acknowledges;
    if !call_sheet::clocks_ok(clocks, s) {
        return 5;
    }
    if !call_sheet::kind_ok(rule.matches, s) {
        return 7;
    }
    if !acknowledge_ok(acknowledges, s, head) {
        return 8;
    }
    0
}

// A call on writers whose sheet meets no refusal.
fn turn_writers(
    c: TrackerCall,
    s: Sheet,
    head: Head,
    writers: &mut [u8],
    lost: &mut [u8],
    out: &mut [u8],
) -> Called
    requires { WritersFormed head writers.now × (length lost.now ≡ 4096) × (lost_ok head.lost_count lost.now ≡ true) × (length out.old ≡ 4096)
        × ((pens writers lost : List ℕ) → 0 ≡ sheet_refusal (tracker c) s (held_by head pens writers lost)) }
    ensures { TrackerJudged c s head writers.old lost.old out.old result writers.new lost.new out.new }
{
    match c {
        TrackerCall::Matched => writer_liveliness::matched(s, head, writers),
        TrackerCall::Unmatched => writer_liveliness::leave(false, s, head, writers),
        TrackerCall::LostWithParticipant => writer_liveliness::leave(true, s, head, writers),
        TrackerCall::WriterAsserted => writer_liveliness::writer_asserted(s, head, writers),
        TrackerCall::ParticipantAsserted => writer_liveliness::participant_asserted(
            s, head, writers,
        ),
        TrackerCall::Expire => writer_expiry::expire(s, head, writers, lost),
        TrackerCall::TakeLost => writer_expiry::take_lost(s, head, lost, out),
        TrackerCall::TakeStatus => writer_status::take_status(s, head),
        TrackerCall::Acknowledge => writer_status::acknowledge(s, head),
    }
}

// A call on writers.
pub fn tracker_turn(
    c: TrackerCall,
    s: Sheet,
    head: Head,
    writers: &mut [u8],
    lost: &mut [u8],
    out: &mut [u8],
) -> Called
    requires { WritersFormed head writers.old × (length lost.old ≡ 4096) × (lost_ok head.lost_count lost.old ≡ true) × (length out.old ≡ 4096) }
    ensures { TrackerJudged c s head writers.old lost.old out.old result writers.new lost.new out.new }
{
    let number = tracker_refusal(c, s, head);
    if number != 0 {
        return answers::refused(number, head);
    }
    turn_writers(c, s, head, writers, lost, out)
}
