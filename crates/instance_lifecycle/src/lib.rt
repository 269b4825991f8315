// Codes 1 to 5 on one instance by value: it is registered, disposed and unregistered. Each function gives what the definition
// of its name in model's Instances says. Code 6 is in instance_fields.
//
// Derives from instance_tracker.rs of ZeroDDS.
// Copyright 2026 ZeroDDS Contributors. SPDX-License-Identifier: Apache-2.0. Changed: written anew in Rattle; an instance is
// a value that goes in and comes back, and its writers are a set of fixed size.
#![tactic(auto)]

ghost use Rattle.std.specs.Prelude.{not, ◌&&◌, ◌≡◌, eqb, ◌-◌, max};
ghost use Rattle.model.specs.Instances.{is_alive, is_disposed, writerless, writers_in, counted_down, without, registered, ensured, disposed, unregistered, writer_unregistered};
ghost use Rattle.model.specs.Sets.{is_empty};
ghost use Rattle.writer_set.specs.Places.{Sound};
ghost use Rattle.instance_fields.specs.Usable.{UsableLife};

use instance_fields::{
    given_time, if_present, is_alive, is_disposed, revived, revived_new, sampled_at, stored,
    with_disposed_at, with_holder, with_kind, with_life, with_no_writers_at, with_times,
    with_writer_count, with_writers,
};
use model::{Guid, InstanceState, InstanceStateKind, Life, MaybeTime, Sheet};

// ---- the parts of which the calls are made

// No writers are left: the kind, and a given time.
fn writerless(at: MaybeTime, x: InstanceState) -> InstanceState
    ensures { result ≡ writerless at x }
{
    let times = with_no_writers_at(given_time(at, x.times.no_writers_at), x.times);
    let y = with_life(with_kind(InstanceStateKind::NotAliveNoWriters, x.life), x);
    with_times(times, y)
}

// One writer fewer is counted, stopping at 0.
fn counted_down(x: InstanceState) -> InstanceState
    ensures { result ≡ counted_down x }
{
    with_life(
        with_writer_count(x.life.writer_count.saturating_sub(1), x.life),
        x,
    )
}

// The GUID taken out of the writers.
fn without(g: Guid, x: InstanceState) -> InstanceState
    requires { Sound x.writers }
    ensures { result ≡ without g x }
{
    with_writers(writer_set::without_writer(x.writers, g), x)
}

// ---- codes 1 and 2

// A writer registers the instance (DDS 1.4, 2.2.2.4.2.5): its holder is stored, and one writer more is counted.
#[tactic(auto, unfolding(model::specs::Instances::registered))]
pub fn registered(s: Sheet, x: InstanceState) -> InstanceState
    requires { UsableLife x.life }
    ensures { result ≡ registered s x }
{
    let n = x.life.writer_count.saturating_add(1);
    let y = with_life(with_writer_count(n, revived(x.life)), x);
    let z = with_holder(stored(s.holder), y);
    sampled_at(if_present(s.time_1), z)
}

// A sample implies the registration: at least one writer is counted.
#[tactic(auto, unfolding(model::specs::Instances::ensured))]
pub fn ensured(x: InstanceState) -> InstanceState
    requires { UsableLife x.life }
    ensures { result ≡ ensured x }
{
    with_life(
        with_writer_count(x.life.writer_count.max(1), revived_new(x.life)),
        x,
    )
}

// ---- codes 3, 4 and 5

// A writer declares the instance not alive (DDS 1.4, 2.2.2.4.2.10).
#[tactic(auto, unfolding(model::specs::Instances::disposed))]
pub fn disposed(at: MaybeTime, x: InstanceState) -> InstanceState
    ensures { result ≡ disposed at x }
{
    let times = with_disposed_at(given_time(at, x.times.disposed_at), x.times);
    let y = with_life(with_kind(InstanceStateKind::NotAliveDisposed, x.life), x);
    sampled_at(at, with_times(times, y))
}

// The count of writers runs out on an instance that is not disposed: losing a writer does not undo a disposal.
fn runs_out(l: Life) -> bool
    ensures { result ≡ (eqb (l.writer_count - 1) 0 && not (is_disposed l.kind)) }
{
    l.writer_count <= 1 && !is_disposed(l.kind)
}

// A counted writer unregisters (DDS 1.4, 2.2.2.4.2.7). The writer set stays as it is.
#[tactic(auto, unfolding(model::specs::Instances::unregistered))]
pub fn unregistered(at: MaybeTime, x: InstanceState) -> InstanceState
    ensures { result ≡ unregistered at x }
{
    let y = counted_down(x);
    if runs_out(x.life) {
        sampled_at(at, writerless(at, y))
    } else {
        sampled_at(at, y)
    }
}

// An alive instance whose set is empty.
fn is_writerless(x: InstanceState) -> bool
    requires { Sound x.writers }
    ensures { result ≡ (is_empty (writers_in x) && is_alive x.life.kind) }
{
    writer_set::is_empty(x.writers) && is_alive(x.life.kind)
}

// A writer named by its GUID unregisters; a disposed instance loses it too, and stays disposed.
pub fn writer_unregistered(g: Guid, at: MaybeTime, x: InstanceState) -> InstanceState
    requires { Sound x.writers }
    ensures { result ≡ writer_unregistered g at x }
{
    let rest = without(g, x);
    if is_writerless(rest) {
        sampled_at(at, writerless(at, rest))
    } else {
        sampled_at(at, rest)
    }
}
