// A call's code: the call that it is. A call's row: what is said of it as a call. And what the sheets of the joined calls
// decide.
//
// Derives from instance_tracker.rs and liveliness_tracker.rs of ZeroDDS.
// Copyright 2026 ZeroDDS Contributors. SPDX-License-Identifier: Apache-2.0. Changed: written anew in Rattle, with the state
// lent as head and buffers.
#![tactic(auto)]

ghost use Rattle.std.proofs.Math.Option.{some};
ghost use Rattle.std.specs.Prelude.{◌≡◌, ◌≤◌, false};
ghost use Rattle.model.specs.declared.AcknowledgeUse.TheVariants.{Nothing};
ghost use Rattle.model.specs.declared.ClockUse.TheVariants.{NoClock};
ghost use Rattle.model.specs.declared.JoinedCall.TheVariants.{Admit, Lapse, Part, Depart};
ghost use Rattle.model.specs.Calls.{tracker, joined, last_tracker, last_joined, call_of_code};
ghost use Rattle.model.specs.declared.LostUse.TheVariants.{Leaves};
ghost use Rattle.model.specs.declared.TrackerReport.TheVariants.{Moved};
ghost use Rattle.model.specs.Refusals.{sheet_refusal};
ghost use Rattle.model.specs.State.{State};
ghost use Rattle.model.specs.Writers.{tracker_rule};

use model::{
    AcknowledgeUse, ClockUse, JoinedCall, LostUse, Sheet, TrackerCall, TrackerReport, TrackerRule,
};

// The call on writers of a code from 32 to 40.
#[tactic(auto, unfolding(model::specs::Calls::call_of_code, model::specs::Calls::amongst, model::specs::Calls::calls))]
pub fn tracker_call(code: u8) -> TrackerCall
    requires { (32 ≤ code) × (code ≤ last_tracker) }
    ensures { call_of_code code ≡ some (tracker result) }
{
    match code {
        32 => TrackerCall::Matched,
        33 => TrackerCall::Unmatched,
        34 => TrackerCall::LostWithParticipant,
        35 => TrackerCall::WriterAsserted,
        36 => TrackerCall::ParticipantAsserted,
        37 => TrackerCall::Expire,
        38 => TrackerCall::TakeLost,
        39 => TrackerCall::TakeStatus,
        _ => TrackerCall::Acknowledge,
    }
}

// The row of a call on the writers alone: it tells whether a class changed.
fn on_writers(clocks: ClockUse, matches: bool) -> TrackerRule
    ensures { result ≡ record { clocks = clocks; matches = matches; lost = Leaves; acknowledges = Nothing; report = Moved } }
{
    TrackerRule {
        clocks,
        matches,
        lost: LostUse::Leaves,
        acknowledges: AcknowledgeUse::Nothing,
        report: TrackerReport::Moved,
    }
}

// The row of a call on Lost.
fn on_lost(clocks: ClockUse, lost: LostUse, report: TrackerReport) -> TrackerRule
    ensures { result ≡ record { clocks = clocks; matches = false; lost = lost; acknowledges = Nothing; report = report } }
{
    TrackerRule {
        clocks,
        matches: false,
        lost,
        acknowledges: AcknowledgeUse::Nothing,
        report,
    }
}

// The row of a call on the status.
fn on_status(acknowledges: AcknowledgeUse, report: TrackerReport) -> TrackerRule
    ensures { result ≡ record { clocks = NoClock; matches = false; lost = Leaves; acknowledges = acknowledges; report = report } }
{
    TrackerRule {
        clocks: ClockUse::NoClock,
        matches: false,
        lost: LostUse::Leaves,
        acknowledges,
        report,
    }
}

// The row of a call on writers.
pub fn tracker_rule(c: TrackerCall) -> TrackerRule
    ensures { result ≡ tracker_rule c }
{
    match c {
        TrackerCall::Matched => on_writers(ClockUse::ClockAndLease, true),
        TrackerCall::Unmatched => on_writers(ClockUse::NoClock, false),
        TrackerCall::LostWithParticipant => on_writers(ClockUse::NoClock, false),
        TrackerCall::WriterAsserted => on_writers(ClockUse::Clock, false),
        TrackerCall::ParticipantAsserted => on_writers(ClockUse::Clock, false),
        TrackerCall::Expire => on_lost(
            ClockUse::Clock,
            LostUse::Appends,
            TrackerReport::MovedAndDue,
        ),
        TrackerCall::TakeLost => on_lost(ClockUse::NoClock, LostUse::Empties, TrackerReport::Lost),
        TrackerCall::TakeStatus => on_status(AcknowledgeUse::Whole, TrackerReport::Status),
        TrackerCall::Acknowledge => on_status(AcknowledgeUse::Part, TrackerReport::Silent),
    }
}

// The joined call of a code from 48 to 51.
#[tactic(auto, unfolding(model::specs::Calls::call_of_code, model::specs::Calls::amongst, model::specs::Calls::calls))]
pub fn joined_call(code: u8) -> JoinedCall
    requires { (48 ≤ code) × (code ≤ last_joined) }
    ensures { call_of_code code ≡ some (joined result) }
{
    match code {
        48 => JoinedCall::Admit,
        49 => JoinedCall::Lapse,
        50 => JoinedCall::Part,
        _ => JoinedCall::Depart,
    }
}

// The number of the refusal that the sheet of code 48 meets, 0 for none.
pub fn admit_refusal(s: Sheet) -> u8
    ensures { (st : State) → result ≡ sheet_refusal (joined Admit) s st }
{
    let t = s.time_1;
    let u = s.time_2;
    if !call_sheet::both_ok(t, u) {
        return 4;
    }
    let h = s.holder;
    if 144 < h.len {
        return 6;
    }
    0
}

// The same of code 49.
pub fn lapse_refusal(s: Sheet) -> u8
    ensures { (st : State) → result ≡ sheet_refusal (joined Lapse) s st }
{
    let t = s.time_1;
    if !call_sheet::optional_ok(t) {
        return 4;
    }
    if !call_sheet::clock_ok(s.a) {
        return 5;
    }
    0
}

// The same of codes 50 and 51.
pub fn leave_refusal(s: Sheet) -> u8
    ensures { (st : State) → (result ≡ sheet_refusal (joined Part) s st) × (result ≡ sheet_refusal (joined Depart) s st) }
{
    let t = s.time_1;
    if !call_sheet::optional_ok(t) {
        return 4;
    }
    0
}
