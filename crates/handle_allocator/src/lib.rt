// The allocator of instance handles: the counter as a struct that is lent and changed in place, thin over the step by value
// (instance_handle::allocate_step). What a step is stands in model's Handles.
//
// Derives from instance_handle.rs of ZeroDDS.
// Copyright 2026 ZeroDDS Contributors. SPDX-License-Identifier: Apache-2.0. Changed: written anew in Rattle, lent by `&mut`
// in place of an atomic number.
#![tactic(auto)]

ghost use Rattle.std.specs.Prelude.{◌≡◌};
ghost use Rattle.model.specs.Handles.{allocated};

use model::{Allocated, InstanceHandle};

// The number that is given next; 0, which is nil, is skipped.
#[derive(Clone, Copy)]
pub struct InstanceHandleAllocator {
    pub counter: u64,
}

// One handle. The counter moves on.
pub fn allocate(a: &mut InstanceHandleAllocator) -> InstanceHandle
    ensures { (result ≡ (allocated a.old.counter).handle) × (a.new.counter ≡ (allocated a.old.counter).counter) }
{
    let step = instance_handle::allocate_step(a.counter);
    a.counter = step.counter;
    step.handle
}

// One handle from an allocator at the counter, and where its counter is then: for callers that have plain numbers.
pub fn allocate_at(counter: u64) -> Allocated
    ensures { result ≡ allocated counter }
{
    let mut a = InstanceHandleAllocator { counter };
    let handle = allocate(&mut a);
    Allocated {
        handle,
        counter: a.counter,
    }
}
