// Whether the 512 bytes of an instance are well formed. Each function works on one record, so that the offsets are the
// document's.
//
// Derives from instance_tracker.rs of ZeroDDS.
// Copyright 2026 ZeroDDS Contributors. SPDX-License-Identifier: Apache-2.0. Changed: written anew in Rattle, with the
// instance as bytes of a fixed layout.
#![tactic(auto)]

ghost use Rattle.std.specs.Prelude.{◌≡◌, true, false, ◌&&◌, ◌+◌, ◌*◌, ◌≤◌, ltb, length, drop, MatchOption};
ghost use Rattle.octets.specs.Octets.{be};
ghost use Rattle.model.specs.Guids.{num, less, guid_at, guids_in};
ghost use Rattle.model.specs.InstanceRecord.{time_at, life_of, times_of, owner_of, holder_of, writer_set_of};
ghost use Rattle.model.specs.Tables.{rising};
ghost use Rattle.model.specs.WellFormed.{time_ok, times_ok, owner_ok, holder_ok, set_ok, life_ok};
ghost use Rattle.instance_decoding.specs.Parts.{record_ok};

// A time that is present has nanoseconds below 10^9; an absent one is zero.
fn time_ok(s: &[u8], at: usize, present: bool) -> bool
    requires { at + 8 ≤ length s.now }
    ensures { result ≡ time_ok (time_at s.now at present) }
{
    if !present {
        return octets::get_u64(s, at) == 0;
    }
    octets::get_u32(s, at + 4) < 1000000000
}

// Each of the six times is valid.
fn times_ok(s: &[u8; 512], f: u16) -> bool
    ensures { result ≡ times_ok (times_of s.now f) }
{
    if !time_ok(s, 44, f / 4096 % 2 == 1) {
        return false;
    }
    if !time_ok(s, 52, f / 2048 % 2 == 1) {
        return false;
    }
    if !time_ok(s, 60, f / 1024 % 2 == 1) {
        return false;
    }
    if !time_ok(s, 68, f / 512 % 2 == 1) {
        return false;
    }
    if !time_ok(s, 76, f / 256 % 2 == 1) {
        return false;
    }
    time_ok(s, 84, f / 64 % 2 == 1)
}

// The kind is one of three, and the generations are not negative.
fn life_ok(s: &[u8; 512], f: u16) -> bool
    ensures { result ≡ (ltb f 49152 && life_ok (life_of s.now f)) }
{
    let d = octets::get_u32(s, 28);
    let n = octets::get_u32(s, 32);
    (f < 49152) & ((d < 2147483648) & (n < 2147483648))
}

// An absent owner is zero.
fn owner_ok(s: &[u8; 512], f: u16) -> bool
    ensures { result ≡ owner_ok (owner_of s.now f) }
{
    if f / 128 % 2 == 1 {
        return true;
    }
    let g = guid::guid_at(s, 92);
    let absent = guid::is_same(g, guid::nil());
    let n = octets::get_u32(s, 108);
    absent & (n == 0)
}

// A holder has at most 144 bytes, and zeros behind them; an absent one is zero.
fn holder_ok(s: &[u8; 512], f: u16) -> bool
    ensures { result ≡ holder_ok (holder_of s.now f) }
{
    let n = octets::get_u16(s, 26) as usize;
    if f / 32 % 2 == 1 {
        if 144 < n {
            return false;
        }
        return zeros::zero_tail(s, 112 + n, 256);
    }
    if n != 0 {
        return false;
    }
    zeros::zero_tail(s, 112, 256)
}

// The low half of the GUID behind that of the 16 bytes from at, where it stands behind that one; the caller has that one's low
// half from the neighbour before. The next low half is read in either branch, and not before them: so the compiler keeps the
// branches, and turns the bytes of a half round only where its order is asked for.
fn next_beside(s: &[u8], at: usize, low: u64) -> Option<u64>
    requires { (at + 32 ≤ length s.now) × (low ≡ be 8 s.now (at + 8)) }
    ensures { MatchOption result (less (guid_at s.now at) (guid_at s.now (at + 16)) ≡ false) (λ l. (less (guid_at s.now at) (guid_at s.now (at + 16)) ≡ true) × (l ≡ be 8 s.now (at + 24))) }
{
    let a = octets::get_u64(s, at);
    let b = octets::get_u64(s, at + 16);
    if a != b {
        if b < a {
            return None;
        }
        return Some(octets::get_u64(s, at + 24));
    }
    let next = octets::get_u64(s, at + 24);
    if next <= low {
        return None;
    }
    Some(next)
}

// Whether the six GUIDs from at strictly rise.
fn six_rise(s: &[u8], at: usize) -> bool
    requires { at + 96 ≤ length s.now }
    ensures { result ≡ rising num (guids_in 6 (drop at s.now)) }
{
    let Some(b) = next_beside(s, at, octets::get_u64(s, at + 8)) else {
        return false;
    };
    let Some(c) = next_beside(s, at + 16, b) else {
        return false;
    };
    let Some(d) = next_beside(s, at + 32, c) else {
        return false;
    };
    let Some(e) = next_beside(s, at + 48, d) else {
        return false;
    };
    next_beside(s, at + 64, e).is_some()
}

// Whether the n GUIDs from at strictly rise, one neighbour a turn.
fn few_rise(s: &[u8], from: usize, n: usize) -> bool
    requires { from + n * 16 ≤ length s.now }
    ensures { result ≡ rising num (guids_in n (drop from s.now)) }
{
    let mut at = from;
    let mut left = n;
    while 1 < left {
        let Some(_) = next_beside(s, at, octets::get_u64(s, at + 8)) else {
            return false;
        };
        at += 16;
        left -= 1;
    }
    true
}

// The first n GUIDs of the writer set strictly rise. Five neighbours a turn, so that what a turn reads is read once.
fn set_rises(s: &[u8; 512], n: usize) -> bool
    requires { n ≤ 16 }
    ensures { result ≡ rising num (guids_in n (drop 256 s.now)) }
{
    let mut at = 256;
    let mut left = n;
    while 5 < left {
        if !six_rise(s, at) {
            return false;
        }
        at += 80;
        left -= 5;
    }
    few_rise(s, at, left)
}

// The writer set has at most 16 GUIDs, which strictly rise, and nil behind them.
fn set_ok(s: &[u8; 512], f: u16) -> bool
    ensures { result ≡ set_ok (writer_set_of s.now f) }
{
    let n = (f % 32) as usize;
    if 16 < n {
        return false;
    }
    if !set_rises(s, n) {
        return false;
    }
    zeros::zero_from(s, 256 + n * 16)
}

// Whether the record is well formed.
pub fn record_ok(s: &[u8; 512]) -> bool
    ensures { result ≡ record_ok s.now }
{
    let f = octets::get_u16(s, 24);
    if !life_ok(s, f) {
        return false;
    }
    if !times_ok(s, f) {
        return false;
    }
    if !owner_ok(s, f) {
        return false;
    }
    if !holder_ok(s, f) {
        return false;
    }
    set_ok(s, f)
}
