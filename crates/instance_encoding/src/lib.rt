// The 512 bytes of an instance, written from a struct by value. Each function works on one record, so that the offsets
// are the document's; the last takes a whole table.
//
// Derives from instance_tracker.rs of ZeroDDS.
// Copyright 2026 ZeroDDS Contributors. SPDX-License-Identifier: Apache-2.0. Changed: written anew in Rattle, with the
// instance as bytes of a fixed layout.
#![tactic(auto)]

ghost use Rattle.std.specs.Prelude.{◌≡◌, ◌+◌, ◌*◌, ◌≤◌, ◌<◌, length};
ghost use Rattle.std.proofs.Math.Seq.{paste};
ghost use Rattle.octets.specs.Octets.{put};
ghost use Rattle.octets.specs.Fields.{puts};
ghost use Rattle.octets.specs.Patch.{patch};
ghost use Rattle.model.specs.Guids.{guids_bytes};
ghost use Rattle.model.specs.InstanceRecord.{bit, kind_number, instance_bytes, instance_widths, instance_values, flags_of};
ghost use Rattle.instance_encoding.specs.Parts.{life_widths, life_values, times_widths, times_values};

use model::{Guid, Instance, InstanceState, InstanceStateKind, Life, MaybeTime, Times};

// ---- one record

// The number of a kind.
fn kind_number(k: InstanceStateKind) -> u32
    ensures { (result ≡ kind_number k) × (result < 3) }
{
    match k {
        InstanceStateKind::Alive => 0,
        InstanceStateKind::NotAliveDisposed => 1,
        InstanceStateKind::NotAliveNoWriters => 2,
    }
}

// One bit more.
fn push(acc: u32, b: bool) -> u32
    requires { acc < 65536 }
    ensures { (result ≡ acc * 2 + bit b) × (result < acc * 2 + 2) }
{
    acc * 2 + u32::from(b)
}

// The 16 bits of the flags.
fn flags_of(x: InstanceState) -> u16
    requires { x.writers.len < 32 }
    ensures { result ≡ flags_of x }
{
    let a = push(kind_number(x.life.kind), x.life.view_new);
    let b = push(a, x.times.last_sample.present);
    let c = push(b, x.times.last_delivered.present);
    let d = push(c, x.times.last_filter.present);
    let e = push(d, x.times.disposed_at.present);
    let f = push(e, x.times.no_writers_at.present);
    let g = push(f, x.owner.present);
    let h = push(g, x.times.owner_at.present);
    let i = push(h, x.holder.present);
    (i * 32) as u16 + x.writers.len as u16
}

// The 8 bytes of a time are written from at.
fn write_time(s: &mut [u8], at: usize, m: MaybeTime)
    requires { at + 8 ≤ length s.old }
    ensures { s.new ≡ put 4 (put 4 s.old at m.sec) (at + 4) m.nanosec }
{
    octets::put_u32(s, at, m.sec);
    octets::put_u32(s, at + 4, m.nanosec);
}

// The flags, the holder's length and the counts are written.
fn write_life(s: &mut [u8], f: u16, n: u16, l: Life)
    requires { length s.old ≡ 512 }
    ensures { s.new ≡ puts life_widths (life_values f n l) s.old 0 24 }
{
    octets::put_u16(s, 24, f);
    octets::put_u16(s, 26, n);
    octets::put_u32(s, 28, l.disposed_generations);
    octets::put_u32(s, 32, l.no_writers_generations);
    octets::put_u32(s, 36, l.writer_count);
    octets::put_u32(s, 40, l.samples);
}

// The six times are written.
fn write_times(s: &mut [u8], m: Times)
    requires { length s.old ≡ 512 }
    ensures { s.new ≡ puts times_widths (times_values m) s.old 0 44 }
{
    write_time(s, 44, m.last_sample);
    write_time(s, 52, m.last_delivered);
    write_time(s, 60, m.last_filter);
    write_time(s, 68, m.disposed_at);
    write_time(s, 76, m.no_writers_at);
    write_time(s, 84, m.owner_at);
}

// The fields before the holder are written; f are the flags.
fn write_fields(s: &mut [u8], f: u16, x: Instance)
    requires { (length s.old ≡ 512) × (f ≡ flags_of x.state) }
    ensures { s.new ≡ puts instance_widths (instance_values x) s.old 0 0 }
{
    let state = x.state;
    guid::put_guid(s, 0, x.key);
    octets::put_u64(s, 16, x.handle.0);
    write_life(s, f, state.holder.len, state.life);
    write_times(s, state.times);
    guid::put_guid(s, 92, state.owner.guid);
    octets::put_u32(s, 108, state.owner.strength);
}

// The 16 GUIDs of the writer set are written.
fn write_guids(s: &mut [u8], gs: [Guid; 16])
    requires { length s.old ≡ 512 }
    ensures { s.new ≡ patch s.old 256 256 (guids_bytes gs) }
{
    for i in 0..16 {
        guid::put_guid(s, 256 + i * 16, gs[i]);
    }
}

// The bytes of the holder are written; there are 144.
fn write_holder(s: &mut [u8], bytes: [u8; 144])
    requires { length s.old ≡ 512 }
    ensures written { s.new ≡ paste s.old 112 bytes 144 }
    ensures size { length bytes ≡ 144 }
{
    octets::copy(&bytes, 0, s, 112, 144);
}

// The whole instance is written.
pub fn write_instance(s: &mut [u8], x: Instance)
    requires { (length s.old ≡ 512) × (x.state.writers.len < 32) }
    ensures { s.new ≡ instance_bytes x }
{
    let state = x.state;
    write_fields(s, flags_of(state), x);
    write_holder(s, state.holder.bytes);
    write_guids(s, state.writers.items);
}

// ---- in a table

// Instance i becomes x.
pub fn put_instance(t: &mut [u8], i: usize, x: Instance)
    requires { (i * 512 + 512 ≤ length t.old) × (x.state.writers.len < 32) }
    ensures { t.new ≡ patch t.old (i * 512) 512 (instance_bytes x) }
{
    write_instance(&mut t[i * 512..i * 512 + 512], x);
}
