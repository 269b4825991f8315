// A call's sheet: its 256 bytes as fields, and the refusals that the sheet alone decides.
#![tactic(auto)]

ghost use Rattle.std.specs.Prelude.{◌≡◌, true, [], ◌∷◌, ◌≤◌, ◌<◌, length};
ghost use Rattle.model.specs.InstanceRecord.{flag};
ghost use Rattle.model.specs.Calls.{instances};
ghost use Rattle.model.specs.Refusals.{used, with_time, optional, times_used_by, nanoseconds_ok, holder_used_by, holder_fits, sheet_refusal, clocks_with, kind_with};
ghost use Rattle.model.specs.declared.ClockUse.TheVariants.{ClockAndLease};
ghost use Rattle.model.specs.Sheets.{padded, holder_on, sheet_of};
ghost use Rattle.model.specs.State.{State};
ghost use Rattle.model.specs.Tables.{all};
ghost use Rattle.model.specs.WellFormed.{clock_ok};

use model::{ClockUse, FieldUse, Holder, InstanceCall, InstanceHandle, MaybeTime, Sheet};

// The bytes, zeros behind them.
fn padded(bytes: &[u8]) -> [u8; 144]
    requires { length bytes.now ≤ 144 }
    ensures { result ≡ padded bytes.now }
{
    let mut all = [0u8; 144];
    all[..bytes.len()].copy_from_slice(bytes);
    all
}

// The holder on the sheet.
fn read_holder(s: &[u8], present: bool) -> Holder
    requires { length s.now ≡ 256 }
    ensures { result ≡ holder_on s.now present }
{
    let len = octets::get_u16(s, 82);
    let end = 84 + usize::from(len.min(144));
    Holder {
        present,
        len,
        bytes: padded(&s[84..end]),
    }
}

// The bit of weight w, a divisor of 128.
fn has_bit(bits: u8, w: u8) -> bool
    requires { 0 < w }
    ensures { result ≡ flag w bits }
{
    bits / w % 2 == 1
}

// The fields of a sheet.
#[tactic(auto, unfolding(model::specs::Sheets::sheet_of))]
pub fn read_sheet(s: &[u8]) -> Sheet
    requires { length s.now ≡ 256 }
    ensures { result ≡ sheet_of s.now }
{
    let bits = octets::get_u8(s, 80);
    Sheet {
        key: guid::guid_at(s, 0),
        guid: guid::guid_at(s, 16),
        handle: InstanceHandle(octets::get_u64(s, 32)),
        time_1: instance_decoding::read_time(s, 40, has_bit(bits, 128)),
        time_2: instance_decoding::read_time(s, 48, true),
        a: octets::get_u64(s, 56),
        b: octets::get_u64(s, 64),
        first: octets::get_u32(s, 72),
        second: octets::get_u32(s, 76),
        deadline_present: has_bit(bits, 64),
        lease_present: has_bit(bits, 32),
        manual: has_bit(bits, 8),
        by_source: has_bit(bits, 4),
        kind: bits % 4,
        code: octets::get_u8(s, 81),
        holder: read_holder(s, has_bit(bits, 16)),
    }
}

// ---- what the sheet alone decides

// Nanoseconds below 10^9.
#[tactic(auto, unfolding(model::specs::Tables::all))]
pub fn nanoseconds_ok(t: MaybeTime) -> bool
    ensures { result ≡ all nanoseconds_ok (t ∷ []) }
{
    t.nanosec < 1_000_000_000
}

// The same of a time that is used where its presence bit is set.
#[tactic(auto, unfolding(model::specs::Tables::all))]
pub fn optional_ok(t: MaybeTime) -> bool
    ensures { result ≡ all nanoseconds_ok (optional t) }
{
    !t.present || nanoseconds_ok(t)
}

// The same of two times.
#[tactic(auto, unfolding(model::specs::Tables::all))]
pub fn both_ok(t: MaybeTime, u: MaybeTime) -> bool
    ensures { result ≡ all nanoseconds_ok (t ∷ u ∷ []) }
{
    nanoseconds_ok(t) && nanoseconds_ok(u)
}

// A field is used, as the call's row says of it and its presence bit.
fn is_used(k: FieldUse, present: bool) -> bool
    ensures { result ≡ used k present }
{
    match k {
        FieldUse::Never => false,
        FieldUse::IfPresent => present,
        FieldUse::Always => true,
    }
}

// Nanoseconds below 10^9 where the time is used.
#[tactic(auto, unfolding(model::specs::Tables::all))]
fn time_ok(k: FieldUse, t: MaybeTime) -> bool
    ensures { result ≡ all nanoseconds_ok (with_time k t []) }
{
    !is_used(k, t.present) || nanoseconds_ok(t)
}

// The times that a call on instances uses.
pub fn times_ok(c: InstanceCall, s: Sheet) -> bool
    ensures { result ≡ all nanoseconds_ok (times_used_by c s) }
{
    let rule = instance_rules::rule_of(c);
    time_ok(rule.time_1, s.time_1) && time_ok(rule.time_2, s.time_2)
}

// A call on instances takes the holder.
fn holder_used(c: InstanceCall, s: Sheet) -> bool
    ensures { result ≡ holder_used_by c s }
{
    is_used(instance_rules::rule_of(c).holder, s.holder.present)
}

// A holder that the call takes has at most 144 bytes.
pub fn holder_fits(c: InstanceCall, s: Sheet) -> bool
    ensures { result ≡ holder_fits (instances c) s }
{
    !holder_used(c, s) || s.holder.len <= 144
}

// The number of the refusal that the sheet of a call on instances meets, 0 for none.
pub fn instance_refusal(c: InstanceCall, s: Sheet) -> u8
    ensures { (st : State) → result ≡ sheet_refusal (instances c) s st }
{
    if !times_ok(c, s) {
        return 4;
    }
    if !holder_fits(c, s) {
        return 6;
    }
    0
}

// A clock below 2^62.
#[tactic(auto, unfolding(model::specs::Tables::all))]
pub fn clock_ok(clock: u64) -> bool
    ensures { result ≡ all clock_ok (clock ∷ []) }
{
    clock < 0x4000_0000_0000_0000
}

// Clock A, and the lease in B where its bit is set.
#[tactic(auto, unfolding(model::specs::Tables::all))]
fn lease_ok(s: Sheet) -> bool
    ensures { result ≡ all clock_ok (clocks_with ClockAndLease s) }
{
    clock_ok(s.a) && (!s.lease_present || clock_ok(s.b))
}

// The clocks and leases that a call on writers uses, by its column.
#[tactic(auto, unfolding(model::specs::Tables::all))]
pub fn clocks_ok(used: ClockUse, s: Sheet) -> bool
    ensures { result ≡ all clock_ok (clocks_with used s) }
{
    match used {
        ClockUse::NoClock => true,
        ClockUse::Clock => clock_ok(s.a),
        ClockUse::ClockAndLease => lease_ok(s),
    }
}

// Kind 3 in a match is none.
pub fn kind_ok(matches: bool, s: Sheet) -> bool
    ensures { result ≡ kind_with matches s }
{
    !matches || s.kind != 3
}
