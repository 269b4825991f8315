// The writers' side of the lent state: whether writers, Lost and head are well formed. What that means stands in model's
// WellFormed.
#![tactic(auto)]

ghost use Rattle.std.specs.Prelude.{◌&&◌, ◌||◌, cond, ◌≡◌, ◌+◌, ◌*◌, ◌≤◌, ◌<◌, eqb, pos, ◌-ℤ◌, length, take, drop};
ghost use Rattle.model.specs.Guids.{less};
ghost use Rattle.model.specs.State.{writers_in};
ghost use Rattle.model.specs.WellFormed.{lease_ok, writer_ok, writer_table_ok, lost_ok, within, head_ok, counts_ok};
ghost use Rattle.model.specs.WriterRecord.{writer_of};
ghost use Rattle.writer_record.specs.Records.{spares_in, writer_from};
ghost use Rattle.writer_validity.specs.Agreed.{records_agree};

use model::{Guid, Head};

// ---- the tables

// Whether a lease is below 2^62, and zero where it is absent.
fn lease_ok(present: bool, nanos: u64) -> bool
    ensures { result ≡ lease_ok (record { present = present; nanos = nanos }) }
{
    if present {
        nanos < 0x4000_0000_0000_0000
    } else {
        nanos == 0
    }
}

// Whether lease and last assertion are within their bounds, and a departed writer has only GUID and state.
fn values_ok(flags: u8, nanos: u64, last: u64) -> bool
    ensures { (g : Guid) → result ≡ writer_ok (writer_from g flags nanos last) }
{
    if !lease_ok(flags / 8 % 2 == 1, nanos) {
        return false;
    }
    if 0x4000_0000_0000_0000 <= last {
        return false;
    }
    if flags / 16 % 4 != 3 {
        return true;
    }
    (flags / 64 == 0) & ((flags / 8 % 2 != 1) & (last == 0))
}

// Whether the bytes from at are a writer's record. Flags and spare bytes are read as one word.
fn record_ok(t: &[u8], at: usize) -> bool
    requires { at + 40 ≤ length t.now }
    ensures { result ≡ (spares_in (take 40 (drop at t.now)) && writer_ok (writer_of (take 40 (drop at t.now)))) }
{
    let word = octets::get_u64(t, at + 16);
    let flags = (word / 0x100_0000_0000_0000) as u8;
    if 192 <= flags {
        return false;
    }
    if flags % 8 != 0 {
        return false;
    }
    if word % 0x100_0000_0000_0000 != 0 {
        return false;
    }
    let nanos = octets::get_u64(t, at + 24);
    let last = octets::get_u64(t, at + 32);
    values_ok(flags, nanos, last)
}

// Whether the key g of record i is above that of the record before it.
fn follows(i: usize, before: Guid, g: Guid) -> bool
    ensures { result ≡ (eqb i 0 || less before g) }
{
    i == 0 || guid::is_less(before, g)
}

// One more, where it is so.
fn one_more(yes: bool, n: u32) -> u32
    requires { n < 128 }
    ensures { result ≡ cond yes (n + 1) n }
{
    n + u32::from(yes)
}

// Whether each of the first count records is well formed by itself, their keys rise, and so many are alive and not alive:
// in one pass.
fn records_ok(t: &[u8], count: usize, alive: u32, not_alive: u32) -> bool
    requires { (count ≤ 128) × (count * 40 ≤ length t.now) }
    ensures { result ≡ records_agree count t.now alive not_alive }
{
    let mut last = guid::nil();
    let mut a: u32 = 0;
    let mut d: u32 = 0;
    for i in 0..count {
        let g = guid::guid_at(t, i * 40);
        if !follows(i, last, g) {
            return false;
        }
        if !record_ok(t, i * 40) {
            return false;
        }
        let state = octets::get_u8(t, i * 40 + 16) / 16 % 4;
        a = one_more(state == 1, a);
        d = one_more(2 <= state, d);
        last = g;
    }
    (alive == a) & (not_alive == d)
}

// Whether the writer table is well formed with so many writers, and both counts of the head agree with it.
pub fn writers_ok(h: Head, writers: &[u8], count: usize) -> bool
    requires { length writers.now ≡ 5120 }
    ensures { result ≡ (writer_table_ok count writers.now && counts_ok h (writers_in count writers.now)) }
{
    count <= 128
        && zeros::zero_from(writers, count * 40)
        && records_ok(writers, count, h.alive, h.not_alive)
}

// Whether Lost is well formed with so many GUIDs.
pub fn lost_ok(lost: &[u8], count: usize) -> bool
    requires { length lost.now ≡ 4096 }
    ensures { result ≡ lost_ok count lost.now }
{
    count <= 256 && zeros::zero_from(lost, count * 16)
}

// ---- the head

// Whether what was acknowledged of a count is within its bound.
fn acknowledged_ok(count: u32, change: i32) -> bool
    ensures { result ≡ within (pos count -ℤ change) }
{
    numbers::within_bound(numbers::acknowledged(count, change))
}

// Whether the next handle is from 1 to 2^63, and of both counts what was acknowledged is within its bound.
pub fn head_ok(h: Head) -> bool
    ensures { result ≡ head_ok h }
{
    let next = h.next_handle.0;
    if next == 0 {
        return false;
    }
    if 0x8000_0000_0000_0000 < next {
        return false;
    }
    acknowledged_ok(h.alive, h.alive_change) && acknowledged_ok(h.not_alive, h.not_alive_change)
}
