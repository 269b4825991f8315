// Codes 8 to 15 on one instance by value: its samples are observed, admitted, delivered, seen and taken. Each function gives
// what the definition of its name in model's Instances says.
//
// Derives from instance_tracker.rs of ZeroDDS.
// Copyright 2026 ZeroDDS Contributors. SPDX-License-Identifier: Apache-2.0. Changed: written anew in Rattle; an instance is
// a value that goes in and comes back.
#![tactic(auto)]

ghost use Rattle.std.specs.Prelude.{◌≡◌};
ghost use Rattle.model.specs.Instances.{counted, lifecycle_observed, admitted_observed, admitted_noted, delivery_recorded, viewed, drained};
ghost use Rattle.writer_set.specs.Places.{Sound};
ghost use Rattle.instance_fields.specs.Usable.{UsableLife, Room};

use instance_fields::{
    always, given_holder, if_present, revived_new, sampled_at, stored, with_delivery, with_holder,
    with_life, with_samples, with_times, with_view, writer_noted,
};
use model::{InstanceState, MaybeTime, Sheet};

// ---- the parts of which the calls are made

// One more sample, stopping at 2^32 - 1.
fn counted(x: InstanceState) -> InstanceState
    ensures { result ≡ counted x }
{
    with_life(with_samples(x.life.samples.saturating_add(1), x.life), x)
}

// ---- codes 8, 9, 10 and 11

// A lifecycle sample is observed: a given holder replaces the one there; nothing is revived.
#[tactic(auto, unfolding(model::specs::Instances::lifecycle_observed))]
pub fn lifecycle_observed(s: Sheet, x: InstanceState) -> InstanceState
    ensures { result ≡ lifecycle_observed s x }
{
    let y = with_holder(given_holder(s.holder, x.holder), x);
    counted(sampled_at(if_present(s.time_1), y))
}

// A data sample is observed: it revives, and its holder is stored where none is.
#[tactic(auto, unfolding(model::specs::Instances::admitted_observed))]
pub fn admitted_observed(s: Sheet, x: InstanceState) -> InstanceState
    requires { UsableLife x.life }
    ensures { result ≡ admitted_observed s x }
{
    let y = with_life(revived_new(x.life), x);
    let z = with_holder(given_holder(x.holder, stored(s.holder)), y);
    counted(sampled_at(always(s.time_1), z))
}

// A data sample is admitted: its writer is noted, time 1 serves the order, time 2 the filter.
#[tactic(auto, unfolding(model::specs::Instances::admitted_noted))]
pub fn admitted_noted(s: Sheet, x: InstanceState) -> InstanceState
    requires { Sound x.writers × Room s.guid x }
    ensures { result ≡ admitted_noted s x }
{
    let times = with_delivery(always(s.time_1), always(s.time_2), x.times);
    with_times(times, writer_noted(s.guid, x))
}

// A delivery is recorded, for the order and for the filter.
#[tactic(auto, unfolding(model::specs::Instances::delivery_recorded))]
pub fn delivery_recorded(at: MaybeTime, x: InstanceState) -> InstanceState
    ensures { result ≡ delivery_recorded at x }
{
    with_times(with_delivery(at, at, x.times), x)
}

// ---- codes 12 to 15

// View-new is set or cleared (DDS 1.4, 2.2.2.5.1.8).
#[tactic(auto, unfolding(model::specs::Instances::viewed))]
pub fn viewed(v: bool, x: InstanceState) -> InstanceState
    ensures { result ≡ viewed v x }
{
    with_life(with_view(v, x.life), x)
}

// n samples fewer, stopping at 0.
#[tactic(auto, unfolding(model::specs::Instances::drained))]
pub fn drained(n: u32, x: InstanceState) -> InstanceState
    ensures { result ≡ drained n x }
{
    with_life(with_samples(x.life.samples.saturating_sub(n), x.life), x)
}
