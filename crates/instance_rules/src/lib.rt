// The calls on instances: the call of a code, and its row in the table of the calls, `rule` in model's Instances.
//
// Derives from instance_tracker.rs of ZeroDDS.
// Copyright 2026 ZeroDDS Contributors. SPDX-License-Identifier: Apache-2.0. Changed: written anew in Rattle, with one table
// for what the Rust says method by method.
#![tactic(auto)]

ghost use Rattle.std.proofs.Math.Option.{some};
ghost use Rattle.std.specs.Prelude.{◌≡◌, ◌≤◌};
ghost use Rattle.model.specs.Calls.{instances, last_instance, call_of_code};
ghost use Rattle.model.specs.Instances.{on_one, adding, on_all, rule, starts_by, limited_by, is_every};

use model::{FieldUse, InstanceCall, Reach, Report, Rule, Says};

// ---- codes

// The call on instances of a code from 1 to 21.
#[tactic(auto, unfolding(model::specs::Calls::call_of_code, model::specs::Calls::amongst, model::specs::Calls::calls))]
pub fn instance_call(code: u8) -> InstanceCall
    requires { (1 ≤ code) × (code ≤ last_instance) }
    ensures { call_of_code code ≡ some (instances result) }
{
    match code {
        1 => InstanceCall::Register,
        2 => InstanceCall::EnsureRegisteredLimited,
        3 => InstanceCall::Dispose,
        4 => InstanceCall::Unregister,
        5 => InstanceCall::UnregisterWriter,
        6 => InstanceCall::NoteWriter,
        7 => InstanceCall::DropWriter,
        8 => InstanceCall::ObserveLifecycle,
        9 => InstanceCall::ObserveAdmitted,
        10 => InstanceCall::NoteAdmitted,
        11 => InstanceCall::RecordDelivery,
        12 => InstanceCall::NoteTaken,
        13 => InstanceCall::MarkViewSeen,
        14 => InstanceCall::MarkViewNew,
        15 => InstanceCall::DrainSamples,
        16 => InstanceCall::AcceptUnderExclusiveOwnership,
        17 => InstanceCall::UpdateOwnerStrength,
        18 => InstanceCall::ClearOwnerForWriter,
        19 => InstanceCall::ClearOwnerForWriterPrefix,
        20 => InstanceCall::ReleaseOwnerOf,
        _ => InstanceCall::Autopurge,
    }
}

// ---- rows

// A call on one instance.
fn on_one(reach: Reach, time_1: FieldUse, time_2: FieldUse, holder: FieldUse, says: Says) -> Rule
    ensures { result ≡ on_one reach time_1 time_2 holder says }
{
    Rule {
        reach,
        adds_writer: false,
        time_1,
        time_2,
        holder,
        says,
        reports: Report::Nothing,
    }
}

// One that puts a GUID into the writer set.
fn adding(reach: Reach, time_1: FieldUse, time_2: FieldUse, holder: FieldUse, says: Says) -> Rule
    ensures { result ≡ adding reach time_1 time_2 holder says }
{
    Rule {
        adds_writer: true,
        ..on_one(reach, time_1, time_2, holder, says)
    }
}

// A call on every instance.
fn on_all(time_1: FieldUse, time_2: FieldUse, reports: Report) -> Rule
    ensures { result ≡ on_all time_1 time_2 reports }
{
    Rule {
        reach: Reach::Every,
        adds_writer: false,
        time_1,
        time_2,
        holder: FieldUse::Never,
        says: Says::Nothing,
        reports,
    }
}

// The table of the calls.
pub fn rule_of(c: InstanceCall) -> Rule
    ensures { result ≡ rule c }
{
    match c {
        InstanceCall::Register => on_one(
            Reach::StartingByKey,
            FieldUse::IfPresent,
            FieldUse::Never,
            FieldUse::Always,
            Says::Handle,
        ),
        InstanceCall::EnsureRegisteredLimited => on_one(
            Reach::StartingWithin,
            FieldUse::Never,
            FieldUse::Never,
            FieldUse::Never,
            Says::Handle,
        ),
        InstanceCall::Dispose => on_one(
            Reach::ByHandle,
            FieldUse::IfPresent,
            FieldUse::Never,
            FieldUse::Never,
            Says::Known,
        ),
        InstanceCall::Unregister => on_one(
            Reach::ByHandle,
            FieldUse::IfPresent,
            FieldUse::Never,
            FieldUse::Never,
            Says::Known,
        ),
        InstanceCall::UnregisterWriter => on_one(
            Reach::ByHandle,
            FieldUse::IfPresent,
            FieldUse::Never,
            FieldUse::Never,
            Says::Known,
        ),
        InstanceCall::NoteWriter => adding(
            Reach::ByHandle,
            FieldUse::Never,
            FieldUse::Never,
            FieldUse::Never,
            Says::Nothing,
        ),
        InstanceCall::DropWriter => on_all(FieldUse::IfPresent, FieldUse::Never, Report::Left),
        InstanceCall::ObserveLifecycle => on_one(
            Reach::StartingByKey,
            FieldUse::IfPresent,
            FieldUse::Never,
            FieldUse::IfPresent,
            Says::Handle,
        ),
        InstanceCall::ObserveAdmitted => on_one(
            Reach::StartingWithin,
            FieldUse::Always,
            FieldUse::Never,
            FieldUse::Always,
            Says::Samples,
        ),
        InstanceCall::NoteAdmitted => adding(
            Reach::ByKey,
            FieldUse::Always,
            FieldUse::Always,
            FieldUse::Never,
            Says::Info,
        ),
        InstanceCall::RecordDelivery => on_one(
            Reach::ByKey,
            FieldUse::Always,
            FieldUse::Never,
            FieldUse::Never,
            Says::Nothing,
        ),
        InstanceCall::NoteTaken => on_one(
            Reach::ByHandle,
            FieldUse::Never,
            FieldUse::Never,
            FieldUse::Never,
            Says::Nothing,
        ),
        InstanceCall::MarkViewSeen => on_one(
            Reach::ByHandle,
            FieldUse::Never,
            FieldUse::Never,
            FieldUse::Never,
            Says::Nothing,
        ),
        InstanceCall::MarkViewNew => on_one(
            Reach::ByKey,
            FieldUse::Never,
            FieldUse::Never,
            FieldUse::Never,
            Says::Known,
        ),
        InstanceCall::DrainSamples => on_one(
            Reach::ByHandle,
            FieldUse::Never,
            FieldUse::Never,
            FieldUse::Never,
            Says::Nothing,
        ),
        InstanceCall::AcceptUnderExclusiveOwnership => on_one(
            Reach::ByKey,
            FieldUse::Never,
            FieldUse::Always,
            FieldUse::Never,
            Says::Accepted,
        ),
        InstanceCall::UpdateOwnerStrength => on_all(
            FieldUse::Never,
            FieldUse::Never,
            Report::Nothing,
        ),
        InstanceCall::ClearOwnerForWriter => on_all(
            FieldUse::Never,
            FieldUse::Never,
            Report::Owner,
        ),
        InstanceCall::ClearOwnerForWriterPrefix => on_all(
            FieldUse::Never,
            FieldUse::Never,
            Report::Prefix,
        ),
        InstanceCall::ReleaseOwnerOf => on_one(
            Reach::ByKey,
            FieldUse::Never,
            FieldUse::Never,
            FieldUse::Never,
            Says::Released,
        ),
        InstanceCall::Autopurge => on_all(FieldUse::Never, FieldUse::Always, Report::Purge),
    }
}

// ---- what a reach is

// It starts an absent instance.
pub fn starts(r: Reach) -> bool
    ensures { result ≡ starts_by r }
{
    matches!(r, Reach::StartingByKey | Reach::StartingWithin)
}

// It does so up to a limit.
pub fn is_limited(r: Reach) -> bool
    ensures { result ≡ limited_by r }
{
    matches!(r, Reach::StartingWithin)
}

// It is on every instance.
pub fn is_every(r: Reach) -> bool
    ensures { result ≡ is_every r }
{
    matches!(r, Reach::Every)
}
