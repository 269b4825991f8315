// The calls that reach one instance, over the lent table: by key, where some start an absent one, or by handle, as the call's
// row says. Refused are 9, a new instance where every place is taken; 13, one where the next handle is 2^63; and 10, a new
// writer where an instance has 16. Nothing is then written.
//
// Derives from instance_tracker.rs of ZeroDDS.
// Copyright 2026 ZeroDDS Contributors. SPDX-License-Identifier: Apache-2.0. Changed: written anew in Rattle, with the
// instances as a table of records in lent bytes and each call as a way to reach an instance and an effect on it.
#![tactic(auto)]

ghost use Rattle.std.specs.Prelude.{true, false, not, ◌&&◌, ◌≡◌, ◌<◌, leb};
ghost use Rattle.std.proofs.Math.Option.{none, some};
ghost use Rattle.model.specs.Answers.{refused_with};
ghost use Rattle.model.specs.InstanceCalls.{crowds, samples_answer, answer_of};
ghost use Rattle.model.specs.Instances.{rule, limited_by};
ghost use Rattle.model.specs.State.{instances_in};
ghost use Rattle.model.specs.Times.{negative};
ghost use Rattle.instance_fields.specs.Usable.{Usable, Room};
ghost use Rattle.instance_reach.specs.Rules.{single, handled};
ghost use Rattle.instance_table.specs.TableCalls.{TableFormed, left};
ghost use Rattle.instance_reach.specs.Turned.{start_refusal, Turned, Acted, Reached, Starts};

use instance_table::TableCall;
use model::{Answer, Instance, InstanceCall, InstanceHandle, InstanceState, Reach, Says, Sheet};

// What the head says of the lent table: its places, how many instances stand in it, and the handle that is next.
#[derive(Clone, Copy)]
pub struct TableHead {
    pub places: usize,
    pub count: u32,
    pub next: InstanceHandle,
}

impl TableHead {
    // The call changes nothing of this, and answers so.
    pub fn left(self, answer: Answer) -> TableCall
        ensures { result ≡ left answer self.count self.next }
    {
        TableCall {
            answer,
            count: self.count,
            next_handle: self.next,
        }
    }
}

// The call reaches its instance by handle.
fn reaches_by_handle(c: InstanceCall) -> bool
    ensures { result ≡ handled (rule c).reach }
{
    matches!(instance_rules::rule_of(c).reach, Reach::ByHandle)
}

// ---- limit, places and crowd

// So many instances meet the limit; a negative limit is none.
pub fn at_limit(limit: u32, count: u32) -> bool
    ensures { result ≡ (not (negative limit) && leb limit count) }
{
    limit < 2147483648 && limit <= count
}

// The call has a limit, which so many instances meet.
fn limited(c: InstanceCall, limit: u32, count: u32) -> bool
    ensures { result ≡ (limited_by (rule c).reach && (not (negative limit) && leb limit count)) }
{
    instance_rules::is_limited(instance_rules::rule_of(c).reach) && at_limit(limit, count)
}

// What refuses a new instance, else 0: 9 where every place is taken, 13 where the next handle is 2^63.
pub fn start_refusal(places: usize, count: u32, next: InstanceHandle) -> u8
    ensures { result ≡ start_refusal places count next.0 }
{
    if places <= count as usize {
        return 9;
    }
    if 9223372036854775808 <= next.0 {
        return 13;
    }
    0
}

// The writer is new to an instance that has 16.
pub fn crowds(s: Sheet, x: Instance) -> bool
    requires { Usable x.state }
    ensures { result ≡ crowds s (some x) }
{
    !writer_set::holds(x.state.writers, s.guid) && 16 <= x.state.writers.len
}

// The call adds a writer to an instance that has 16 others.
fn crowded(c: InstanceCall, s: Sheet, x: Instance) -> bool
    requires { Usable x.state }
    ensures { result ≡ ((rule c).adds_writer && crowds s (some x)) }
{
    instance_rules::rule_of(c).adds_writer && crowds(s, x)
}

// ---- the answer

// The handle and the samples of an instance.
fn samples_of(y: Instance) -> Answer
    ensures { result ≡ samples_answer (some y) }
{
    answers::handed_samples(y.handle, y.state.life.samples)
}

// What the call answers of its instance, as it was before the call and after it.
fn answered(c: InstanceCall, s: Sheet, x: Instance, y: Instance) -> Answer
    ensures { result ≡ answer_of (rule c).says s (some x) (some y) }
{
    match instance_rules::rule_of(c).says {
        Says::Nothing => answers::silent(),
        Says::Handle => answers::handed(x.handle),
        Says::Known => answers::saying(true),
        Says::Samples => samples_of(y),
        Says::Info => answers::informed(answers::info_of(y.state)),
        Says::Accepted => answers::saying(instance_ownership::takes_over(s, x.state)),
        Says::Released => answers::saying(instance_ownership::owns(s.guid, x.state.owner)),
    }
}

// What it answers where it reaches none: an unknown instance accepts.
fn unanswered(c: InstanceCall) -> Answer
    ensures { (s : Sheet) → result ≡ answer_of (rule c).says s none none }
{
    match instance_rules::rule_of(c).says {
        Says::Nothing | Says::Handle | Says::Samples | Says::Info => answers::silent(),
        Says::Known | Says::Released => answers::saying(false),
        Says::Accepted => answers::saying(true),
    }
}

// ---- what a call leaves where it writes nothing

// The call is refused with this number, or with 0 answers none.
fn stopped(n: u8, t: TableHead) -> TableCall
    ensures { result ≡ left (refused_with n) t.count t.next }
{
    t.left(answers::refused_with(n))
}

// The call reaches no instance and starts none.
fn idle(c: InstanceCall, t: TableHead) -> TableCall
    ensures { (s : Sheet) → result ≡ left (answer_of (rule c).says s none none) t.count t.next }
{
    t.left(unanswered(c))
}

// ---- the call on one instance

// What the call leaves of an instance: its key and its handle stay.
fn acted(c: InstanceCall, s: Sheet, x: Instance) -> Instance
    requires { (single (rule c).reach ≡ true) × Usable x.state × ((rule c).adds_writer ≡ true → Room s.guid x.state) }
    ensures { Acted c s x result }
{
    let after = instance_effects::take_effect(c, s, x.state);
    Instance { state: after, ..x }
}

// The call acts on the instance at place i, which it reaches; refused is a writer too many.
fn change(c: InstanceCall, s: Sheet, pens: &mut [u8], i: usize, t: TableHead) -> TableCall
    requires { TableFormed t.places t.count t.next.0 pens.old × Reached c s (instances_in t.count pens.old) i }
    ensures { Turned t.places c s (instances_in t.count pens.old) t.next.0 result pens.new }
{
    let x = instance_decoding::instance_at(pens, i);
    if crowded(c, s, x) {
        return stopped(10, t);
    }
    let y = acted(c, s, x);
    instance_table::replace(pens, i, y);
    t.left(answered(c, s, x, y))
}

// The call starts the instance of its key, which goes in at place i, and acts on it.
fn start(c: InstanceCall, s: Sheet, pens: &mut [u8], i: usize, t: TableHead) -> TableCall
    requires { TableFormed t.places t.count t.next.0 pens.old × Starts c s (instances_in t.count pens.old) i × (t.count < t.places) × (t.next.0 < 9223372036854775808)
        × ((limited_by (rule c).reach && (not (negative s.first) && leb s.first t.count)) ≡ false) }
    ensures { Turned t.places c s (instances_in t.count pens.old) t.next.0 result pens.new }
{
    let a = instance_handle::allocate_step(t.next.0);
    let x = instance_effects::started(s.key, a.handle.0);
    let y = acted(c, s, x);
    instance_table::insert(pens, t.count as usize, i, y);
    TableCall {
        answer: answered(c, s, x, y),
        count: t.count + 1,
        next_handle: InstanceHandle(a.counter),
    }
}

// The call would start the instance of its key at place i: none at its limit, then refusals 9 and 13.
fn begin(c: InstanceCall, s: Sheet, pens: &mut [u8], i: usize, t: TableHead) -> TableCall
    requires { TableFormed t.places t.count t.next.0 pens.old × Starts c s (instances_in t.count pens.old) i }
    ensures { Turned t.places c s (instances_in t.count pens.old) t.next.0 result pens.new }
{
    if limited(c, s.first, t.count) {
        return stopped(0, t);
    }
    let n = start_refusal(t.places, t.count, t.next);
    if n != 0 {
        return stopped(n, t);
    }
    start(c, s, pens, i, t)
}

// ---- the calls

// A call by key.
pub fn by_key(
    c: InstanceCall,
    s: Sheet,
    pens: &mut [u8],
    places: usize,
    count: u32,
    next: InstanceHandle,
) -> TableCall
    requires { TableFormed places count next.0 pens.old × (single (rule c).reach ≡ true) × (handled (rule c).reach ≡ false) }
    ensures { Turned places c s (instances_in count pens.old) next.0 result pens.new }
{
    let t = TableHead {
        places,
        count,
        next,
    };
    match instance_table::find_key(pens, count as usize, s.key) {
        Ok(i) => change(c, s, pens, i, t),
        Err(i) => {
            if instance_rules::starts(instance_rules::rule_of(c).reach) {
                return begin(c, s, pens, i, t);
            }
            idle(c, t)
        }
    }
}

// A call by handle.
pub fn by_handle(
    c: InstanceCall,
    s: Sheet,
    pens: &mut [u8],
    places: usize,
    count: u32,
    next: InstanceHandle,
) -> TableCall
    requires { TableFormed places count next.0 pens.old × (handled (rule c).reach ≡ true) }
    ensures { Turned places c s (instances_in count pens.old) next.0 result pens.new }
{
    let t = TableHead {
        places,
        count,
        next,
    };
    let n = count as usize;
    let i = instance_table::find_handle(pens, n, s.handle);
    if i < n {
        return change(c, s, pens, i, t);
    }
    idle(c, t)
}

// A call that reaches one instance, by key or by handle.
pub fn single_call(
    c: InstanceCall,
    s: Sheet,
    pens: &mut [u8],
    places: usize,
    count: u32,
    next: InstanceHandle,
) -> TableCall
    requires { TableFormed places count next.0 pens.old × (single (rule c).reach ≡ true) }
    ensures { Turned places c s (instances_in count pens.old) next.0 result pens.new }
{
    if reaches_by_handle(c) {
        return by_handle(c, s, pens, places, count, next);
    }
    by_key(c, s, pens, places, count, next)
}
