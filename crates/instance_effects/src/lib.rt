// One instance by value: `take_effect`, the table of what each call that reaches one instance does to it, and a started
// instance. What a call does to every instance is done in their records (instance_pass). Each function gives what the definition
// of its name in model's Instances says.
//
// Derives from instance_tracker.rs of ZeroDDS.
// Copyright 2026 ZeroDDS Contributors. SPDX-License-Identifier: Apache-2.0. Changed: written anew in Rattle; an instance is
// a value that goes in and comes back, and its writers are a set of fixed size.
#![tactic(auto)]

ghost use Rattle.std.specs.Prelude.{true, false, ◌≡◌};
ghost use Rattle.std.proofs.Math.Option.{some};
ghost use Rattle.model.specs.Instances.{effect, rule, on_every, started_state, started};
ghost use Rattle.instance_fields.specs.Usable.{Usable, Room};

use instance_fields::{always, if_present};
use model::{
    Guid, Holder, Instance, InstanceCall, InstanceHandle, InstanceState, InstanceStateKind, Life,
    MaybeOwner, MaybeTime, Sheet, Times, WriterSet,
};

// ---- a started instance

// Alive, view-new, all else zero or absent.
#[tactic(auto, unfolding(model::specs::Instances::started_state))]
pub fn started_state() -> InstanceState
    ensures { result ≡ started_state }
{
    let no_time = MaybeTime {
        present: false,
        sec: 0,
        nanosec: 0,
    };
    let nil = guid::nil();
    InstanceState {
        life: Life {
            kind: InstanceStateKind::Alive,
            view_new: true,
            disposed_generations: 0,
            no_writers_generations: 0,
            writer_count: 0,
            samples: 0,
        },
        times: Times {
            last_sample: no_time,
            last_delivered: no_time,
            last_filter: no_time,
            disposed_at: no_time,
            no_writers_at: no_time,
            owner_at: no_time,
        },
        owner: MaybeOwner {
            present: false,
            guid: nil,
            strength: 0,
        },
        holder: Holder {
            present: false,
            len: 0,
            bytes: [0u8; 144],
        },
        writers: WriterSet {
            len: 0,
            items: [nil; 16],
        },
    }
}

// The instance of a key with its handle, as a call starts it.
#[tactic(auto, unfolding(model::specs::Instances::started))]
pub fn started(key: Guid, handle: u64) -> Instance
    ensures { result ≡ started key handle }
{
    Instance {
        key,
        handle: InstanceHandle(handle),
        state: started_state(),
    }
}

// ---- the table of the calls

// What a call that reaches one instance leaves of it. A call on every instance does not come here.
pub fn take_effect(c: InstanceCall, s: Sheet, x: InstanceState) -> InstanceState
    requires { (on_every c ≡ false) × Usable x × ((rule c).adds_writer ≡ true → Room s.guid x) }
    ensures { effect c s x ≡ some result }
{
    match c {
        InstanceCall::Register => instance_lifecycle::registered(s, x),
        InstanceCall::EnsureRegisteredLimited => instance_lifecycle::ensured(x),
        InstanceCall::Dispose => instance_lifecycle::disposed(if_present(s.time_1), x),
        InstanceCall::Unregister => instance_lifecycle::unregistered(if_present(s.time_1), x),
        InstanceCall::UnregisterWriter => instance_lifecycle::writer_unregistered(
            s.guid,
            if_present(s.time_1),
            x,
        ),
        InstanceCall::NoteWriter => instance_fields::writer_noted(s.guid, x),
        InstanceCall::DropWriter => x,
        InstanceCall::ObserveLifecycle => instance_samples::lifecycle_observed(s, x),
        InstanceCall::ObserveAdmitted => instance_samples::admitted_observed(s, x),
        InstanceCall::NoteAdmitted => instance_samples::admitted_noted(s, x),
        InstanceCall::RecordDelivery => instance_samples::delivery_recorded(always(s.time_1), x),
        InstanceCall::NoteTaken => instance_samples::viewed(
            false,
            instance_samples::drained(s.second, x),
        ),
        InstanceCall::MarkViewSeen => instance_samples::viewed(false, x),
        InstanceCall::MarkViewNew => instance_samples::viewed(true, x),
        InstanceCall::DrainSamples => instance_samples::drained(s.second, x),
        InstanceCall::AcceptUnderExclusiveOwnership => instance_ownership::ownership_tried(s, x),
        InstanceCall::UpdateOwnerStrength => x,
        InstanceCall::ClearOwnerForWriter => x,
        InstanceCall::ClearOwnerForWriterPrefix => x,
        InstanceCall::ReleaseOwnerOf => instance_ownership::owner_cleared(s.guid, x),
        InstanceCall::Autopurge => x,
    }
}
