// One instance by value: with one group of its fields changed, and the parts that the calls of several families are made of.
// Each function gives what the definition of its name in model's Instances says.
//
// Derives from instance_tracker.rs of ZeroDDS.
// Copyright 2026 ZeroDDS Contributors. SPDX-License-Identifier: Apache-2.0. Changed: written anew in Rattle; an instance is
// a value that goes in and comes back, and its writers are a set of fixed size.
#![tactic(auto)]

ghost use Rattle.std.specs.Prelude.{cond, ◌≡◌};
ghost use Rattle.model.specs.Instances.{with_life, with_times, with_owner, with_holder, with_writers, with_kind, with_view, with_generations, with_writer_count, with_samples, with_last_sample, with_delivery, with_disposed_at, with_no_writers_at, with_owner_at, is_alive, is_disposed, revived, revived_new, sampled_at, stored, writer_noted};
ghost use Rattle.model.specs.Times.{always, if_present, given};
ghost use Rattle.writer_set.specs.Places.{Sound};
ghost use Rattle.instance_fields.specs.Usable.{UsableLife, Room};

use model::{
    Guid, Holder, InstanceState, InstanceStateKind, Life, MaybeOwner, MaybeTime, Times, WriterSet,
};

// ---- an instance with one group of its fields changed

// x with another life.
pub fn with_life(l: Life, x: InstanceState) -> InstanceState
    ensures { result ≡ with_life l x }
{
    InstanceState { life: l, ..x }
}

// x with other times.
pub fn with_times(t: Times, x: InstanceState) -> InstanceState
    ensures { result ≡ with_times t x }
{
    InstanceState { times: t, ..x }
}

// x with another owner.
pub fn with_owner(o: MaybeOwner, x: InstanceState) -> InstanceState
    ensures { result ≡ with_owner o x }
{
    InstanceState { owner: o, ..x }
}

// x with another holder.
pub fn with_holder(h: Holder, x: InstanceState) -> InstanceState
    ensures { result ≡ with_holder h x }
{
    InstanceState { holder: h, ..x }
}

// x with other writers.
pub fn with_writers(w: WriterSet, x: InstanceState) -> InstanceState
    ensures { result ≡ with_writers w x }
{
    InstanceState { writers: w, ..x }
}

// l with another kind.
pub fn with_kind(k: InstanceStateKind, l: Life) -> Life
    ensures { result ≡ with_kind k l }
{
    Life { kind: k, ..l }
}

// l with view-new set or cleared.
pub fn with_view(v: bool, l: Life) -> Life
    ensures { result ≡ with_view v l }
{
    Life { view_new: v, ..l }
}

// l with other generations.
pub fn with_generations(disposed: u32, no_writers: u32, l: Life) -> Life
    ensures { result ≡ with_generations disposed no_writers l }
{
    Life {
        disposed_generations: disposed,
        no_writers_generations: no_writers,
        ..l
    }
}

// l with another count of writers.
pub fn with_writer_count(n: u32, l: Life) -> Life
    ensures { result ≡ with_writer_count n l }
{
    Life {
        writer_count: n,
        ..l
    }
}

// l with another count of samples.
pub fn with_samples(n: u32, l: Life) -> Life
    ensures { result ≡ with_samples n l }
{
    Life { samples: n, ..l }
}

// t with another time of the last sample.
pub fn with_last_sample(at: MaybeTime, t: Times) -> Times
    ensures { result ≡ with_last_sample at t }
{
    Times {
        last_sample: at,
        ..t
    }
}

// t with other times of the last delivery, for the order and for the filter.
pub fn with_delivery(delivered: MaybeTime, filtered: MaybeTime, t: Times) -> Times
    ensures { result ≡ with_delivery delivered filtered t }
{
    Times {
        last_delivered: delivered,
        last_filter: filtered,
        ..t
    }
}

// t with another time of disposal.
pub fn with_disposed_at(at: MaybeTime, t: Times) -> Times
    ensures { result ≡ with_disposed_at at t }
{
    Times {
        disposed_at: at,
        ..t
    }
}

// t with another time at which the last writer was gone.
pub fn with_no_writers_at(at: MaybeTime, t: Times) -> Times
    ensures { result ≡ with_no_writers_at at t }
{
    Times {
        no_writers_at: at,
        ..t
    }
}

// t with another time of the owner's last sample.
pub fn with_owner_at(at: MaybeTime, t: Times) -> Times
    ensures { result ≡ with_owner_at at t }
{
    Times { owner_at: at, ..t }
}

// ---- times and holders that may be absent

// A given time, else what was there.
pub fn given_time(new: MaybeTime, old: MaybeTime) -> MaybeTime
    ensures { result ≡ given new old }
{
    if new.present { new } else { old }
}

// The time that a call takes where its presence bit is set.
pub fn if_present(t: MaybeTime) -> MaybeTime
    ensures { result ≡ if_present t }
{
    if t.present {
        t
    } else {
        MaybeTime {
            present: false,
            sec: 0,
            nanosec: 0,
        }
    }
}

// The time that a call takes in any case.
pub fn always(t: MaybeTime) -> MaybeTime
    ensures { result ≡ always t }
{
    MaybeTime { present: true, ..t }
}

// A given holder, else the other.
pub fn given_holder(h: Holder, other: Holder) -> Holder
    ensures { result ≡ cond h.present h other }
{
    if h.present { h } else { other }
}

// The sheet's holder, given.
pub fn stored(h: Holder) -> Holder
    ensures { result ≡ stored h }
{
    Holder { present: true, ..h }
}

// ---- kinds

// Whether the kind is alive.
pub fn is_alive(k: InstanceStateKind) -> bool
    ensures { result ≡ is_alive k }
{
    matches!(k, InstanceStateKind::Alive)
}

// Whether the kind is disposed.
pub fn is_disposed(k: InstanceStateKind) -> bool
    ensures { result ≡ is_disposed k }
{
    matches!(k, InstanceStateKind::NotAliveDisposed)
}

// ---- the parts that calls of several families are made of

// Alive again, and one more in the matching generation (DDS 1.4, 2.2.2.5.1.5); an alive instance stays as it is.
#[tactic(auto, unfolding(model::specs::Instances::revived))]
pub fn revived(l: Life) -> Life
    requires { UsableLife l }
    ensures { result ≡ revived l }
{
    match l.kind {
        InstanceStateKind::Alive => l,
        InstanceStateKind::NotAliveDisposed => {
            let n = numbers::generation_after(l.disposed_generations);
            with_kind(
                InstanceStateKind::Alive,
                with_generations(n, l.no_writers_generations, l),
            )
        }
        InstanceStateKind::NotAliveNoWriters => {
            let n = numbers::generation_after(l.no_writers_generations);
            with_kind(
                InstanceStateKind::Alive,
                with_generations(l.disposed_generations, n, l),
            )
        }
    }
}

// Revived, with view-new set where it was not alive.
#[tactic(auto, unfolding(model::specs::Instances::revived_new))]
pub fn revived_new(l: Life) -> Life
    requires { UsableLife l }
    ensures { result ≡ revived_new l }
{
    Life {
        view_new: !is_alive(l.kind) || l.view_new,
        ..revived(l)
    }
}

// A given time goes to last sample.
pub fn sampled_at(at: MaybeTime, x: InstanceState) -> InstanceState
    ensures { result ≡ sampled_at at x }
{
    with_times(
        with_last_sample(given_time(at, x.times.last_sample), x.times),
        x,
    )
}

// A writer is noted as one of the instance's: code 6, and a part of code 10.
#[tactic(auto, unfolding(model::specs::Instances::writer_noted))]
pub fn writer_noted(g: Guid, x: InstanceState) -> InstanceState
    requires { Sound x.writers × Room g x }
    ensures { result ≡ writer_noted g x }
{
    with_writers(writer_set::with_writer(x.writers, g), x)
}
