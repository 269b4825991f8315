// Code 48, admit, over the lent table: the tests on order and filter, then ownership and codes 9 and 10 on one instance,
// read once and written once. Outcomes: 1 out of order, 2 filtered, 3 a new instance at the limit, 4 a weaker writer, 0
// admitted. Refused are 9, a new instance where every place is taken; 13, one where the next handle is 2^63; and 10, a new
// writer where the instance has 16. Only outcome 0 writes.
//
// Derives from instance_tracker.rs of ZeroDDS.
// Copyright 2026 ZeroDDS Contributors. SPDX-License-Identifier: Apache-2.0. Changed: written anew in Rattle, with the
// reader's calls for one sample joined into one call.
#![tactic(auto)]

ghost use Rattle.std.specs.Prelude.{true, false, map, ◌≡◌, ◌<◌, Err};
ghost use Rattle.std.proofs.Math.Option.{some};
ghost use Rattle.model.specs.Answers.{refused_with, stopping, both};
ghost use Rattle.model.specs.Guids.{num};
ghost use Rattle.model.specs.InstanceCalls.{samples_answer, info_answer, crowds};
ghost use Rattle.model.specs.Instances.{has_key, takes_over};
ghost use Rattle.model.specs.Joined.{admit_call, in_order, passes_filter};
ghost use Rattle.model.specs.State.{instance_key, instances_in};
ghost use Rattle.tables.specs.Found.{found_in};
ghost use Rattle.tables.specs.Places.{Only};
ghost use Rattle.instance_fields.specs.Usable.{Usable, Room};
ghost use Rattle.instance_table.specs.TableCalls.{TableFormed, state_with};
ghost use Rattle.instance_reach.specs.Turned.{LeavesTable, blank};
ghost use Rattle.admission.specs.Admits.{Admits, Known, Timely, Sampled, limited};

use instance_reach::TableHead;
use instance_table::TableCall;
use model::{Answer, Instance, InstanceHandle, Sheet};

// ---- the answers

// The sample is not admitted: the number of a refusal, or the outcome that says why.
fn stopped(number: u8, outcome: u8) -> Answer
    ensures refusal { outcome ≡ 0 → result ≡ refused_with number }
    ensures stop { number ≡ 0 → result ≡ stopping outcome }
{
    Answer {
        number,
        outcome,
        ..answers::silent()
    }
}

// The sample is admitted: the instance's handle and samples, and what a SampleInfo takes from it.
fn admitted_answer(y: Instance) -> Answer
    ensures { result ≡ both (samples_answer (some y)) (info_answer (some y)) }
{
    Answer {
        info: answers::info_of(y.state),
        ..answers::handed_samples(y.handle, y.state.life.samples)
    }
}

// ---- the tests

// Destination order by time 1, where the sheet asks for it by source.
fn in_order(s: Sheet, x: Instance) -> bool
    ensures { result ≡ in_order s (some x) }
{
    !s.by_source || sample_time::order_admits(x.state.times.last_delivered, s.time_1)
}

// The filter by time 2, with A as separation.
fn passes_filter(s: Sheet, x: Instance) -> bool
    ensures { result ≡ passes_filter s (some x) }
{
    sample_time::filter_admits(x.state.times.last_filter, s.time_2, s.a)
}

// ---- the sample is admitted

// Codes 9 and 10 on the instance, and the sample's writer owns it: key and handle stay. A first writer is an owner as any
// other: ownership is exclusive from the first sample on (DDS 1.4, 2.2.3.9.2).
fn sampled(s: Sheet, x: Instance) -> Instance
    requires { Usable x.state × Room s.guid x.state }
    ensures { Sampled s x result }
{
    let observed = instance_samples::admitted_observed(s, x.state);
    let noted = instance_samples::admitted_noted(s, observed);
    let owned = instance_ownership::owned_from(s, noted);
    Instance { state: owned, ..x }
}

// The instance x, at place i, takes the sample, whose writer takes over.
fn admit_at(s: Sheet, pens: &mut [u8], i: usize, x: Instance, t: TableHead) -> TableCall
    requires { TableFormed t.places t.count t.next.0 pens.old × Known s (instances_in t.count pens.old) i x × Timely s x × (crowds s (some x) ≡ false)
        × (takes_over s x.state ≡ true) }
    ensures { Admits t.places s (instances_in t.count pens.old) t.next.0 result pens.new }
{
    let y = sampled(s, x);
    instance_table::replace(pens, i, y);
    t.left(admitted_answer(y))
}

// The instance of the key is started, takes the sample and goes in at place i.
fn admit_first(s: Sheet, pens: &mut [u8], i: usize, t: TableHead) -> TableCall
    requires { TableFormed t.places t.count t.next.0 pens.old × (found_in (map instance_key (instances_in t.count pens.old)) (num s.key) ≡ Err i)
        × (limited s t.count ≡ false) × (t.count < t.places) × (t.next.0 < 9223372036854775808) }
    ensures { Admits t.places s (instances_in t.count pens.old) t.next.0 result pens.new }
{
    let a = instance_handle::allocate_step(t.next.0);
    let x = instance_effects::started(s.key, a.handle.0);
    let y = sampled(s, x);
    instance_table::insert(pens, t.count as usize, i, y);
    TableCall {
        answer: admitted_answer(y),
        count: t.count + 1,
        next_handle: InstanceHandle(a.counter),
    }
}

// ---- what stops it

// The instance x of the key stands at place i, and the sample is timely: a writer too many, then a weaker one.
fn admit_timely(s: Sheet, pens: &mut [u8], i: usize, x: Instance, t: TableHead) -> TableCall
    requires { TableFormed t.places t.count t.next.0 pens.old × Known s (instances_in t.count pens.old) i x × Timely s x }
    ensures { Admits t.places s (instances_in t.count pens.old) t.next.0 result pens.new }
{
    if instance_reach::crowds(s, x) {
        return t.left(stopped(10, 0));
    }
    if !instance_ownership::takes_over(s, x.state) {
        return t.left(stopped(0, 4));
    }
    admit_at(s, pens, i, x, t)
}

// The instance of the key stands at place i: order, then filter.
fn admit_known(s: Sheet, pens: &mut [u8], i: usize, t: TableHead) -> TableCall
    requires { TableFormed t.places t.count t.next.0 pens.old × Only (has_key s.key) (instances_in t.count pens.old) i blank }
    ensures { Admits t.places s (instances_in t.count pens.old) t.next.0 result pens.new }
{
    let x = instance_decoding::instance_at(pens, i);
    if !in_order(s, x) {
        return t.left(stopped(0, 1));
    }
    if !passes_filter(s, x) {
        return t.left(stopped(0, 2));
    }
    admit_timely(s, pens, i, x, t)
}

// No instance has the key; a new one would go in at place i. It has no last times, no writers and no owner: what stops it
// is the limit, then refusals 9 and 13.
fn admit_new(s: Sheet, pens: &mut [u8], i: usize, t: TableHead) -> TableCall
    requires { TableFormed t.places t.count t.next.0 pens.old × (found_in (map instance_key (instances_in t.count pens.old)) (num s.key) ≡ Err i) }
    ensures { Admits t.places s (instances_in t.count pens.old) t.next.0 result pens.new }
{
    if instance_reach::at_limit(s.first, t.count) {
        return t.left(stopped(0, 3));
    }
    let n = instance_reach::start_refusal(t.places, t.count, t.next);
    if n != 0 {
        return t.left(stopped(n, 0));
    }
    admit_first(s, pens, i, t)
}

// ---- the call

// Code 48, over a well-formed table.
pub fn admit(
    s: Sheet,
    pens: &mut [u8],
    places: usize,
    count: u32,
    next: InstanceHandle,
) -> TableCall
    requires { TableFormed places count next.0 pens.old }
    ensures { LeavesTable places (admit_call places s (state_with (instances_in count pens.old) next.0)) result pens.new }
{
    let t = TableHead {
        places,
        count,
        next,
    };
    match instance_table::find_key(pens, count as usize, s.key) {
        Ok(i) => admit_known(s, pens, i, t),
        Err(i) => admit_new(s, pens, i, t),
    }
}
