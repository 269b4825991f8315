// The calls on instances, on head and buffers, past refusals 1 to 3: what the sheet decides, then the call itself.
//
// Derives from instance_tracker.rs of ZeroDDS.
// Copyright 2026 ZeroDDS Contributors. SPDX-License-Identifier: Apache-2.0. Changed: written anew in Rattle, with the state
// lent as head and buffers.
#![tactic(auto)]

ghost use Rattle.std.specs.Prelude.{true, ◌≡◌, ◌*◌, ◌≤◌, length};
ghost use Rattle.model.specs.Instances.{on_every};
ghost use Rattle.model.specs.WellFormed.{instance_table_ok};
ghost use Rattle.call_laws.specs.Entered.{InstancesJudged};

use model::{Called, Head, InstanceCall, Sheet};

// Whether a call is one on every instance.
fn on_every(c: InstanceCall) -> bool
    ensures { result ≡ on_every c }
{
    let r = instance_rules::rule_of(c);
    let k = r.reach;
    instance_rules::is_every(k)
}

// A call on instances.
pub fn instance_turn(
    c: InstanceCall,
    s: Sheet,
    head: Head,
    pens: &mut [u8],
    out: &mut [u8],
    places: usize,
) -> Called
    requires { (places ≤ 128) × (length pens.old ≡ places * 512) × (length out.old ≡ 4096)
        × (instance_table_ok places head.instance_count head.next_handle.0 pens.old ≡ true) }
    ensures { InstancesJudged places c s head pens.old out.old result pens.new out.new }
{
    let number = call_sheet::instance_refusal(c, s);
    if number != 0 {
        return answers::refused(number, head);
    }
    let count = head.instance_count;
    let next = head.next_handle;
    if on_every(c) {
        let r = instance_pass::every_call(c, s, pens, out, places, count, next);
        let a = r.answer;
        let n = r.next_handle;
        return lent_state::with_instances(a, head, r.count, n);
    }
    let r = instance_reach::single_call(c, s, pens, places, count, next);
    let a = r.answer;
    let n = r.next_handle;
    lent_state::with_instances(a, head, r.count, n)
}
