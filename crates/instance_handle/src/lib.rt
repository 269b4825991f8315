// Handles: the nil one, the hash of a GUID, and the allocator's step. What they are stands in model's Handles.
//
// Derives from instance_handle.rs of ZeroDDS.
// Copyright 2026 ZeroDDS Contributors. SPDX-License-Identifier: Apache-2.0. Changed: written anew in Rattle, with the
// counter as a plain number; the hash is over a slice of any length.
#![tactic(auto)]

ghost use Rattle.std.specs.Prelude.{◌≡◌};
ghost use Rattle.model.specs.Handles.{handle, not_nil, allocated, fnv_step, fnv, from_guid};

use model::{Allocated, Guid, InstanceHandle};

// The reserved "no handle" (DDS 1.4, 2.3.3).
pub fn nil() -> InstanceHandle
    ensures { result ≡ handle 0 }
{
    InstanceHandle(0)
}

// n, with 0, which is nil, replaced by 1.
fn not_nil(n: u64) -> u64
    ensures { result ≡ not_nil n }
{
    n.max(1)
}

// The allocator's step: nil is skipped.
#[tactic(auto, unfolding(model::specs::Handles::allocated))]
pub fn allocate_step(counter: u64) -> Allocated
    ensures { result ≡ allocated counter }
{
    let given = not_nil(counter);
    Allocated {
        handle: InstanceHandle(given),
        counter: given.wrapping_add(1),
    }
}

// One byte more of 64-bit FNV-1a: xor, then times the prime.
#[tactic(auto, unfolding(model::specs::Handles::fnv_step))]
fn fnv_step(hash: u64, byte: u8) -> u64
    ensures { result ≡ fnv_step hash byte }
{
    numbers::wrapping_mul_u64(u64::from(byte) ^ hash, 0x100_0000_01b3)
}

// 64-bit FNV-1a of the bytes.
#[tactic(auto, using(crate::proofs::Hash::fnv_more, crate::proofs::Hash::fnv_none))]
pub fn fnv_1a(bytes: &[u8]) -> u64
    ensures { result ≡ fnv bytes.now }
{
    let mut hash: u64 = 0xcbf2_9ce4_8422_2325;
    for &byte in bytes {
        hash = fnv_step(hash, byte);
    }
    hash
}

// The handle of a GUID, as the ignore and discovery calls take it: never nil.
pub fn from_guid(g: Guid) -> InstanceHandle
    ensures { result ≡ from_guid g }
{
    let mut bytes = [0u8; 16];
    guid::put_guid(&mut bytes, 0, g);
    InstanceHandle(not_nil(fnv_1a(&bytes)))
}
