// The 512 bytes of an instance, read into a struct by value. Each function works on one record, so that the offsets
// are the document's; the last ones take a whole table.
//
// Derives from instance_tracker.rs of ZeroDDS.
// Copyright 2026 ZeroDDS Contributors. SPDX-License-Identifier: Apache-2.0. Changed: written anew in Rattle, with the
// instance as bytes of a fixed layout.
#![tactic(auto)]

ghost use Rattle.std.specs.Prelude.{◌≡◌, ◌+◌, ◌*◌, ◌≤◌, length, drop};
ghost use Rattle.model.specs.Guids.{guids_in};
ghost use Rattle.model.specs.InstanceRecord.{kind_numbered, time_at, life_of, times_of, owner_of, holder_of, writer_set_of, state_by, instance_of};
ghost use Rattle.instance_decoding.specs.Parts.{record_at};

use model::{
    Guid, Holder, Instance, InstanceHandle, InstanceState, InstanceStateKind, Life, MaybeOwner,
    MaybeTime, Times, WriterSet,
};

// ---- one record

// The kind that a number stands for.
fn kind_of(n: u16) -> InstanceStateKind
    ensures { result ≡ kind_numbered n }
{
    match n {
        0 => InstanceStateKind::Alive,
        1 => InstanceStateKind::NotAliveDisposed,
        _ => InstanceStateKind::NotAliveNoWriters,
    }
}

// The time of the 8 bytes from at, present or not.
pub fn read_time(s: &[u8], at: usize, present: bool) -> MaybeTime
    requires { at + 8 ≤ length s.now }
    ensures { result ≡ time_at s.now at present }
{
    MaybeTime {
        present,
        sec: octets::get_u32(s, at),
        nanosec: octets::get_u32(s, at + 4),
    }
}

// The lifecycle and the counts.
fn read_life(s: &[u8; 512], f: u16) -> Life
    ensures { result ≡ life_of s.now f }
{
    Life {
        kind: kind_of(f / 16384),
        view_new: f / 8192 % 2 == 1,
        disposed_generations: octets::get_u32(s, 28),
        no_writers_generations: octets::get_u32(s, 32),
        writer_count: octets::get_u32(s, 36),
        samples: octets::get_u32(s, 40),
    }
}

// The six times.
fn read_times(s: &[u8; 512], f: u16) -> Times
    ensures { result ≡ times_of s.now f }
{
    Times {
        last_sample: read_time(s, 44, f / 4096 % 2 == 1),
        last_delivered: read_time(s, 52, f / 2048 % 2 == 1),
        last_filter: read_time(s, 60, f / 1024 % 2 == 1),
        disposed_at: read_time(s, 68, f / 512 % 2 == 1),
        no_writers_at: read_time(s, 76, f / 256 % 2 == 1),
        owner_at: read_time(s, 84, f / 64 % 2 == 1),
    }
}

// The owner.
fn read_owner(s: &[u8; 512], f: u16) -> MaybeOwner
    ensures { result ≡ owner_of s.now f }
{
    MaybeOwner {
        present: f / 128 % 2 == 1,
        guid: guid::guid_at(s, 92),
        strength: octets::get_u32(s, 108),
    }
}

// The holder.
fn read_holder(s: &[u8; 512], f: u16) -> Holder
    ensures { result ≡ holder_of s.now f }
{
    let mut bytes = [0; 144];
    bytes.copy_from_slice(&s[112..256]);
    Holder {
        present: f / 32 % 2 == 1,
        len: octets::get_u16(s, 26),
        bytes,
    }
}

// The 16 GUIDs of the writer set.
fn read_guids(s: &[u8; 512]) -> [Guid; 16]
    ensures { result ≡ guids_in 16 (drop 256 s.now) }
{
    let mut guids = [guid::nil(); 16];
    for i in 0..16 {
        guids[i] = guid::guid_at(s, 256 + i * 16);
    }
    guids
}

// The writer set.
fn read_writers(s: &[u8; 512], f: u16) -> WriterSet
    ensures { result ≡ writer_set_of s.now f }
{
    WriterSet {
        len: usize::from(f % 32),
        items: read_guids(s),
    }
}

// All but key and handle, by the flags f.
fn read_state(s: &[u8; 512], f: u16) -> InstanceState
    ensures { result ≡ state_by s.now f }
{
    InstanceState {
        life: read_life(s, f),
        times: read_times(s, f),
        owner: read_owner(s, f),
        holder: read_holder(s, f),
        writers: read_writers(s, f),
    }
}

// 512 bytes as a record's.
fn as_record(s: &[u8]) -> &[u8; 512]
    requires { length s.now ≡ 512 }
    ensures { result.now ≡ s.now }
{
    <&[u8; 512]>::try_from(s).unwrap()
}

// The key alone.
pub fn read_key(s: &[u8]) -> Guid
    requires { length s.now ≡ 512 }
    ensures { result ≡ (instance_of s.now).key }
{
    guid::guid_at(s, 0)
}

// The handle alone.
pub fn read_handle(s: &[u8]) -> InstanceHandle
    requires { length s.now ≡ 512 }
    ensures { result ≡ (instance_of s.now).handle }
{
    InstanceHandle(octets::get_u64(s, 16))
}

// The whole instance.
pub fn read_instance(s: &[u8]) -> Instance
    requires { length s.now ≡ 512 }
    ensures { result ≡ instance_of s.now }
{
    Instance {
        key: read_key(s),
        handle: read_handle(s),
        state: read_state(as_record(s), octets::get_u16(s, 24)),
    }
}

// ---- in a table

// The bytes of record i of a table.
pub fn record_at(t: &[u8], i: usize) -> &[u8; 512]
    requires { i * 512 + 512 ≤ length t.now }
    ensures { result.now ≡ record_at t.now i }
{
    <&[u8; 512]>::try_from(&t[i * 512..i * 512 + 512]).unwrap()
}

// Instance i of a table.
pub fn instance_at(t: &[u8], i: usize) -> Instance
    requires { i * 512 + 512 ≤ length t.now }
    ensures { result ≡ instance_of (record_at t.now i) }
{
    read_instance(record_at(t, i))
}

// The handle of instance i.
pub fn handle_at(t: &[u8], i: usize) -> InstanceHandle
    requires { i * 512 + 512 ≤ length t.now }
    ensures { result ≡ (instance_of (record_at t.now i)).handle }
{
    read_handle(record_at(t, i))
}
