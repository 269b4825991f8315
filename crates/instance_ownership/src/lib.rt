// Codes 16 and 20 on one instance by value: OWNERSHIP and OWNERSHIP_STRENGTH (DDS 1.4, 2.2.3.9, 2.2.3.10). Each function gives
// what the definition of its name in model's Instances says. An owner is lost in four ways (2.2.3.9.2): to a stronger writer, by
// a change of its own strength, with its liveliness, and by a missed deadline.
//
// Derives from instance_tracker.rs of ZeroDDS.
// Copyright 2026 ZeroDDS Contributors. SPDX-License-Identifier: Apache-2.0. Changed: written anew in Rattle; an instance is
// a value that goes in and comes back.
#![tactic(auto)]

ghost use Rattle.std.specs.Prelude.{◌≡◌};
ghost use Rattle.model.specs.Instances.{with_owner, no_owner, owns, outbids, takes_over, owned_from, ownership_tried, owner_cleared};

use instance_fields::{always, with_owner, with_owner_at, with_times};
use model::{Guid, InstanceState, MaybeOwner, Sheet};

// Whether o is the writer's ownership.
pub fn owns(g: Guid, o: MaybeOwner) -> bool
    ensures { result ≡ owns g o }
{
    o.present && guid::is_same(o.guid, g)
}

// No owner, the same, greater strength, or equal strength and lower GUID takes over. The owner's own sample is accepted
// whatever strength it carries: one that lowered its strength would else be turned away by itself. On a tie the standard asks
// only that all readers choose alike (2.2.3.9.2); the lower GUID is what other implementations take.
#[tactic(auto, unfolding(model::specs::Instances::outbids))]
pub fn outbids(g: Guid, strength: u32, o: MaybeOwner) -> bool
    ensures { result ≡ outbids g strength o }
{
    let old = numbers::raise(o.strength);
    let new = numbers::raise(strength);
    !o.present || guid::is_same(o.guid, g) || old < new || old == new && guid::is_less(g, o.guid)
}

// So does a missed deadline of the owner: one that is silent for the period it committed to gives the instance up, to a
// weaker writer too (2.2.3.9.2).
#[tactic(auto, unfolding(model::specs::Instances::takes_over))]
pub fn takes_over(s: Sheet, x: InstanceState) -> bool
    ensures { result ≡ takes_over s x }
{
    outbids(s.guid, s.second, x.owner)
        || s.deadline_present && sample_time::deadline_missed(x.times.owner_at, s.time_2, s.b)
}

// The sheet's writer owns the instance, with the strength that this sample carries. Its deadline counts from time 2.
pub fn owned_from(s: Sheet, x: InstanceState) -> InstanceState
    ensures { result ≡ owned_from s x }
{
    let owner = MaybeOwner {
        present: true,
        guid: s.guid,
        strength: s.second,
    };
    let times = with_owner_at(always(s.time_2), x.times);
    with_times(times, with_owner(owner, x))
}

// A sample under exclusive ownership: its writer owns the instance where it takes over.
#[tactic(auto, unfolding(model::specs::Instances::ownership_tried))]
pub fn ownership_tried(s: Sheet, x: InstanceState) -> InstanceState
    ensures { result ≡ ownership_tried s x }
{
    if takes_over(s, x) {
        owned_from(s, x)
    } else {
        x
    }
}

// The instance with no owner: the next sample of any writer takes it over. The time of the last owner stays, as in the original;
// nothing asks for it until there is an owner again.
fn unowned(x: InstanceState) -> InstanceState
    ensures { result ≡ with_owner no_owner x }
{
    let owner = MaybeOwner {
        present: false,
        guid: guid::nil(),
        strength: 0,
    };
    with_owner(owner, x)
}

// The writer's ownership is cleared: it unregistered the instance and gave it up (2.2.3.23.3).
#[tactic(auto, unfolding(model::specs::Instances::owner_cleared))]
pub fn owner_cleared(g: Guid, x: InstanceState) -> InstanceState
    ensures { result ≡ owner_cleared g x }
{
    if owns(g, x.owner) { unowned(x) } else { x }
}
