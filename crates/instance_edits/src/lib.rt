// One instance's record changed where it stands: of its 512 bytes only those that change are written. Its owner is cleared or
// given another strength, and what is left to write behind a set that lost writers is written. What concerns none of the
// writers of a list is told from few bytes.
//
// Derives from instance_tracker.rs of ZeroDDS.
// Copyright 2026 ZeroDDS Contributors. SPDX-License-Identifier: Apache-2.0. Changed: written anew in Rattle, over records in
// lent bytes.
#![tactic(auto)]

ghost use Rattle.std.specs.Prelude.{true, ◌≡◌, ◌+◌, ◌<◌, ◌≤◌, ◌%◌, length};
ghost use Rattle.model.specs.InstanceRecord.{flag, flags_at, instance_of};
ghost use Rattle.model.specs.Instances.{owns, owns_prefix, writers_in};
ghost use Rattle.instance_edits.specs.Edits.{Formed, OwnerCleared, StrengthPut, WriterlessLeft, Settled, with_bit};
ghost use Rattle.writer_set_bytes.specs.Lists.{gones_in};
ghost use Rattle.instance_edits.specs.Losses.{owned_by};
ghost use Rattle.instance_edits.specs.Spans.{Outside, AllOutside};

use model::{Guid, MaybeTime};
use writer_set_bytes::Gone;

// The GUIDs from low to high.
#[derive(Clone, Copy)]
pub struct Span {
    pub low: Guid,
    pub high: Guid,
}

// ---- the owner

// Whether the instance has that owner.
pub fn owner_is(s: &[u8], g: Guid) -> bool
    requires { length s.now ≡ 512 }
    ensures { result ≡ owns g (instance_of s.now).state.owner }
{
    guid::is_same(guid::guid_at(s, 92), g) && octets::get_u16(s, 24) / 128 % 2 == 1
}

// Whether the instance has an owner of that participant.
pub fn owner_of_prefix(s: &[u8], g: Guid) -> bool
    requires { length s.now ≡ 512 }
    ensures { result ≡ owns_prefix g (instance_of s.now).state.owner }
{
    guid::same_prefix(guid::guid_at(s, 92), g) && octets::get_u16(s, 24) / 128 % 2 == 1
}

// Whether the instance has an owner that is in the list.
pub fn owner_listed(s: &[u8], gone: &Gone) -> bool
    requires { length s.now ≡ 512 }
    ensures { result ≡ owned_by (gones_in gone.now.list.now) (instance_of s.now).state.owner }
{
    if octets::get_u16(s, 24) / 128 % 2 == 0 {
        return false;
    }
    let g = guid::guid_at(s, 92);
    writer_set_bytes::find_listed(gone.list, gone.guesses, g).is_ok()
}

// The owner is cleared; owner_at stays.
pub fn clear_owner(s: &mut [u8])
    requires { (length s.old ≡ 512) × (flag 128 (flags_at s.old) ≡ true) }
    ensures { OwnerCleared s.old s.new }
{
    let f = octets::get_u16(s, 24);
    octets::put_u64(s, 92, 0);
    octets::put_u64(s, 100, 0);
    octets::put_u32(s, 108, 0);
    octets::put_u16(s, 24, f - 128);
}

// The owner has another strength.
pub fn put_strength(s: &mut [u8], strength: u32)
    requires { length s.old ≡ 512 }
    ensures { StrengthPut strength s.old s.new }
{
    octets::put_u32(s, 108, strength);
}

// ---- the writers

// The flags with the bit of weight w set.
fn with_bit(f: u16, w: u16) -> u16
    requires { (0 < w) × (f + w < 65536) }
    ensures { (result ≡ with_bit w f) × (result ≤ f + w) }
{
    if f / w % 2 == 1 { f } else { f + w }
}

// An alive instance is left without writers; f are the flags that it has as an alive one.
fn leave_writerless(s: &mut [u8], f: u16, at: MaybeTime)
    requires { (length s.old ≡ 512) × (f < 16384) }
    ensures { WriterlessLeft f at s.old s.new }
{
    let g = f + 32768;
    if at.present {
        octets::put_u16(s, 24, with_bit(with_bit(g, 256), 4096));
        octets::put_u32(s, 44, at.sec);
        octets::put_u32(s, 48, at.nanosec);
        octets::put_u32(s, 76, at.sec);
        octets::put_u32(s, 80, at.nanosec);
        return;
    }
    octets::put_u16(s, 24, g);
}

// What is left to write of a record whose set was just reduced from n to k GUIDs; whether that leaves it writerless.
pub fn write_remainder(s: &mut [u8], n: usize, k: usize, at: MaybeTime) -> bool
    requires { (length s.old ≡ 512) × (flags_at s.old % 32 ≡ n) × (k ≤ n) }
    ensures { Settled n k at s.old s.new result }
{
    if k == n {
        return false;
    }
    let f = octets::get_u16(s, 24);
    let g = f - (n - k) as u16;
    if k == 0 && f < 16384 {
        leave_writerless(s, g, at);
        return true;
    }
    octets::put_u16(s, 24, g);
    false
}

// ---- beside a span

// Whether the writers of the record stand behind the span or before it: its first and its last tell, as they rise. Of most
// records no other bytes are read.
pub fn set_apart(s: &[u8], w: Span) -> bool
    requires { Formed s.now }
    ensures { result ≡ true → AllOutside w (writers_in (instance_of s.now).state) }
{
    if guid::is_less(w.high, guid::guid_at(s, 256)) {
        return true;
    }
    let n = usize::from(octets::get_u16(s, 24) % 32);
    n == 0 || guid::is_less(guid::guid_at(s, 240 + n * 16), w.low)
}

// Whether the owner's GUID stands before the span or behind it, with an owner or without.
pub fn owner_apart(s: &[u8], w: Span) -> bool
    requires { length s.now ≡ 512 }
    ensures { result ≡ true → Outside w (instance_of s.now).state.owner.guid }
{
    let owner = guid::guid_at(s, 92);
    guid::is_less(owner, w.low) || guid::is_less(w.high, owner)
}
