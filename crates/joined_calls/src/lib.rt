// The joined calls, codes 48 to 51, on head and buffers, past refusals 1 to 3: a sample admitted; and the writers that a
// call on the tracker loses, dropped from every instance in one pass.
//
// Derives from instance_tracker.rs and liveliness_tracker.rs of ZeroDDS.
// Copyright 2026 ZeroDDS Contributors. SPDX-License-Identifier: Apache-2.0. Changed: written anew in Rattle, the calls of
// the two trackers joined.
#![tactic(auto)]

ghost use Rattle.std.specs.Prelude.{true, [], ◌∷◌, ◌≡◌, ◌+◌, ◌≤◌, length};
ghost use Rattle.model.specs.Answers.{with_list};
ghost use Rattle.model.specs.Call.{judged, lent_of, left_of};
ghost use Rattle.model.specs.Calls.{joined};
ghost use Rattle.model.specs.Guids.{num};
ghost use Rattle.model.specs.State.{instances_in};
ghost use Rattle.model.specs.Tables.{rising};
ghost use Rattle.model.specs.WellFormed.{lost_ok};
ghost use Rattle.writer_set_bytes.specs.Lists.{gones_in, Listed};
ghost use Rattle.instance_table.specs.TableCalls.{TableFormed};
ghost use Rattle.writer_counts.specs.WriterCalls.{WritersFormed};
ghost use Rattle.call_laws.specs.Entered.{Entered};
ghost use Rattle.joined_calls.specs.Losses.{Losable, Loses, gone_since, AdmitJudged, departing, LeaveJudged, LapseJudged};

use model::{Answer, Called, Head, JoinedCall, Sheet};

// ---- a sample admitted

// Code 48: what the sheet decides, then the call on the instances.
fn admit(s: Sheet, head: Head, pens: &mut [u8]) -> Called
    requires { TableFormed head.places head.instance_count head.next_handle.0 pens.old }
    ensures { AdmitJudged head.places s head pens.old result pens.new }
{
    let number = call_codes::admit_refusal(s);
    if number != 0 {
        return answers::refused(number, head);
    }
    let places = head.places as usize;
    let r = admission::admit(s, pens, places, head.instance_count, head.next_handle);
    lent_state::with_instances(r.answer, head, r.count, r.next_handle)
}

// ---- writers lost

// The answer of a call on the tracker with the owners cleared and the handles in Out.
fn with_list(a: Answer, count: u32, listed: u32) -> Answer
    ensures { result ≡ with_list a count listed }
{
    Answer {
        count,
        listed,
        ..answers::saying_due(a.yes, a.next_due)
    }
}

// After a call on the tracker, the writers of a list are dropped from every instance: codes 7 and 18 for one after the other.
fn lose(called: Called, s: Sheet, pens: &mut [u8], out: &mut [u8], gone: &[u8]) -> Called
    requires { Losable called.head.instance_count pens.old out.old × Listed gone.now }
    ensures { Loses s (gones_in gone.now) (instances_in called.head.instance_count pens.old) called pens.old out.old result pens.new out.new }
{
    let tally = instance_pass::lose_writers(
        pens,
        out,
        called.head.instance_count as usize,
        gone,
        instance_fields::if_present(s.time_1),
    );
    Called {
        answer: with_list(called.answer, tally.counted as u32, tally.listed as u32),
        ..called
    }
}

// The writer that the sheet names is lost, tracked or not.
fn lose_writer(called: Called, s: Sheet, pens: &mut [u8], out: &mut [u8]) -> Called
    requires { Losable called.head.instance_count pens.old out.old }
    ensures { Loses s (s.guid ∷ []) (instances_in called.head.instance_count pens.old) called pens.old out.old result pens.new out.new }
{
    let mut gone = [0u8; 16];
    octets::put_u64(&mut gone, 0, s.guid.hi);
    octets::put_u64(&mut gone, 8, s.guid.lo);
    lose(called, s, pens, out, &gone)
}

// Code 50: the writer is no longer matched. Code 51: it is lost with its participant.
fn leave(
    lost: bool,
    s: Sheet,
    head: Head,
    pens: &mut [u8],
    writers: &mut [u8],
    out: &mut [u8],
) -> Called
    requires { WritersFormed head writers.old × Losable head.instance_count pens.old out.old }
    ensures { LeaveJudged (departing lost) s head pens.old writers.old out.old result pens.new writers.new out.new }
{
    let number = call_codes::leave_refusal(s);
    if number != 0 {
        return answers::refused(number, head);
    }
    let r = writer_liveliness::leave(lost, s, head, writers);
    lose_writer(r, s, pens, out)
}

// The writers that Lost holds behind the first `before` are lost.
fn lose_expired(
    called: Called,
    s: Sheet,
    pens: &mut [u8],
    lost: &[u8],
    out: &mut [u8],
    before: u32,
) -> Called
    requires { Losable called.head.instance_count pens.old out.old × (length lost.now ≡ 4096) × (before ≤ called.head.lost_count)
        × (called.head.lost_count ≤ 256) × (called.head.lost_count ≤ before + 128)
        × (rising num (gone_since before called.head.lost_count lost.now) ≡ true) }
    ensures { Loses s (gone_since before called.head.lost_count lost.now) (instances_in called.head.instance_count pens.old) called pens.old out.old result pens.new out.new }
{
    let from = before as usize * 16;
    let to = called.head.lost_count as usize * 16;
    lose(called, s, pens, out, &lost[from..to])
}

// Code 49: the writers whose lease has run out are lost; those that expired in earlier calls are not.
fn lapse(
    s: Sheet,
    head: Head,
    pens: &mut [u8],
    writers: &mut [u8],
    lost: &mut [u8],
    out: &mut [u8],
) -> Called
    requires { WritersFormed head writers.old × Losable head.instance_count pens.old out.old × (length lost.old ≡ 4096)
        × (lost_ok head.lost_count lost.old ≡ true) }
    ensures { LapseJudged s head pens.old writers.old lost.old out.old result pens.new writers.new lost.new out.new }
{
    let number = call_codes::lapse_refusal(s);
    if number != 0 {
        return answers::refused(number, head);
    }
    let r = writer_expiry::expire(s, head, writers, lost);
    if r.answer.number != 0 { // refusal 12
        return r;
    }
    lose_expired(r, s, pens, lost, out, head.lost_count)
}

// ---- the calls

// A joined call.
pub fn joined_turn(
    c: JoinedCall,
    s: Sheet,
    head: Head,
    pens: &mut [u8],
    writers: &mut [u8],
    lost: &mut [u8],
    out: &mut [u8],
) -> Called
    requires { (head.places ≤ 128) × Entered head.places (lent_of head pens.old writers.old lost.old out.old) }
    ensures { left_of result pens.new writers.new lost.new out.new
        ≡ judged head.places (joined c) s (lent_of head pens.old writers.old lost.old out.old) }
{
    match c {
        JoinedCall::Admit => admit(s, head, pens),
        JoinedCall::Lapse => lapse(s, head, pens, writers, lost, out),
        JoinedCall::Part => leave(false, s, head, pens, writers, out),
        JoinedCall::Depart => leave(true, s, head, pens, writers, out),
    }
}
