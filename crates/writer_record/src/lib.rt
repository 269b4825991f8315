// A writer's record: 40 bytes of the table on one side, a struct by value on the other. What the bytes mean stands in
// model's WriterRecord.
//
// Derives from liveliness_tracker.rs of ZeroDDS.
// Copyright 2026 ZeroDDS Contributors. SPDX-License-Identifier: Apache-2.0. Changed: written anew in Rattle, the map of
// tracked writers as ordered records in lent bytes.
#![tactic(auto)]

ghost use Rattle.std.specs.Prelude.{true, ◌≡◌, ◌+◌, ◌*◌, ◌/◌, ◌%◌, ◌≤◌, ◌<◌, ◌^◌, length, take, drop};
ghost use Rattle.octets.specs.Patch.{patch};
ghost use Rattle.model.specs.WriterRecord.{liveliness_number, liveliness_numbered, state_number, state_numbered, writer_of, writer_flags, writer_bytes};
ghost use Rattle.model.specs.Writers.{is_alive_state, leased, due_at};
ghost use Rattle.writer_record.specs.Records.{writer_from, lapsed};

use model::{Guid, Liveliness, LivelinessKind, MaybeLease, Writer, WriterState};

// The kind that a number stands for.
pub fn kind_numbered(n: u8) -> LivelinessKind
    ensures { result ≡ liveliness_numbered n }
{
    match n {
        0 => LivelinessKind::Automatic,
        1 => LivelinessKind::ManualByParticipant,
        _ => LivelinessKind::ManualByTopic,
    }
}

// The state that a number stands for.
fn state_numbered(n: u8) -> WriterState
    ensures { result ≡ state_numbered n }
{
    match n {
        0 => WriterState::Unasserted,
        1 => WriterState::Alive,
        2 => WriterState::NotAlive,
        _ => WriterState::Departed,
    }
}

// The number of a kind.
fn kind_number(k: LivelinessKind) -> u8
    ensures { (result ≡ liveliness_number k) × (result < 3) }
{
    k as u8
}

// The number of a state.
pub fn state_number(s: WriterState) -> u8
    ensures { (result ≡ state_number s) × (result < 4) }
{
    s as u8
}

// The byte of kind, state and lease present.
#[tactic(auto, using(crate::proofs::Laws::flag_byte), unfolding(model::specs::WriterRecord::writer_flags))]
fn flags_of(w: Writer) -> u8
    ensures { result ≡ writer_flags w }
{
    let kind = kind_number(w.liveliness.kind);
    let state = state_number(w.liveliness.state);
    let lease = u8::from(w.liveliness.lease.present);
    ((kind * 4 + state) * 2 + lease) * 8
}

// The writer of a GUID, the flags, a lease and a last assertion.
fn writer_from(guid: Guid, flags: u8, nanos: u64, last: u64) -> Writer
    ensures { result ≡ writer_from guid flags nanos last }
{
    Writer {
        guid,
        liveliness: Liveliness {
            kind: kind_numbered(flags / 64),
            state: state_numbered(flags / 16 % 4),
            lease: MaybeLease {
                present: flags / 8 % 2 == 1,
                nanos,
            },
            last_assertion: last,
        },
    }
}

// The writer of a record's bytes.
#[tactic(auto, unfolding(model::specs::WriterRecord::writer_of))]
pub fn read_writer(r: &[u8]) -> Writer
    requires { length r.now ≡ 40 }
    ensures { result ≡ writer_of r.now }
{
    let hi = octets::get_u64(r, 0);
    let lo = octets::get_u64(r, 8);
    let flags = octets::get_u8(r, 16);
    let nanos = octets::get_u64(r, 24);
    let last = octets::get_u64(r, 32);
    writer_from(Guid { hi, lo }, flags, nanos, last)
}

// The writer of record i of a table.
pub fn writer_at(t: &[u8], i: usize) -> Writer
    requires { i * 40 + 40 ≤ length t.now }
    ensures { result ≡ writer_of (take 40 (drop (i * 40) t.now)) }
{
    read_writer(&t[i * 40..i * 40 + 40])
}

// Whether the writer of record i is alive and has a lease, which its byte of flags tells.
pub fn leased_at(t: &[u8], i: usize) -> bool
    requires { i * 40 + 40 ≤ length t.now }
    ensures { result ≡ leased (writer_of (take 40 (drop (i * 40) t.now))) }
{
    let flags = octets::get_u8(t, i * 40 + 16);
    flags / 8 % 8 == 3
}

// When the lease of the writer of record i runs out.
pub fn due_at(t: &[u8], i: usize) -> u64
    requires { (i * 40 + 40 ≤ length t.now) × ((writer_of (take 40 (drop (i * 40) t.now))).liveliness.last_assertion < 2 ^ 62)
        × ((writer_of (take 40 (drop (i * 40) t.now))).liveliness.lease.nanos < 2 ^ 62) }
    ensures { result ≡ due_at (writer_of (take 40 (drop (i * 40) t.now))) }
{
    let nanos = octets::get_u64(t, i * 40 + 24);
    let last = octets::get_u64(t, i * 40 + 32);
    last + nanos
}

// The writer of record i, alive until now, becomes not alive: its byte of flags alone is written.
pub fn expire_at(t: &mut [u8], i: usize)
    requires { (i * 40 + 40 ≤ length t.old) × (writer_bytes (writer_of (take 40 (drop (i * 40) t.old))) ≡ take 40 (drop (i * 40) t.old))
        × (is_alive_state (writer_of (take 40 (drop (i * 40) t.old))).liveliness.state ≡ true) }
    ensures { t.new ≡ patch t.old (i * 40) 40 (writer_bytes (lapsed (writer_of (take 40 (drop (i * 40) t.old))))) }
{
    let at = i * 40 + 16;
    let flags = octets::get_u8(t, at);
    octets::put_u8(t, at, flags + 16);
}

// The record of w is written from index at.
pub fn put_record(t: &mut [u8], at: usize, w: Writer)
    requires { at + 40 ≤ length t.old }
    ensures { t.new ≡ patch t.old at 40 (writer_bytes w) }
{
    let flags = flags_of(w);
    octets::put_u64(t, at, w.guid.hi);
    octets::put_u64(t, at + 8, w.guid.lo);
    octets::put_u8(t, at + 16, flags);
    octets::store(t, at + 17, 7, 0);
    octets::put_u64(t, at + 24, w.liveliness.lease.nanos);
    octets::put_u64(t, at + 32, w.liveliness.last_assertion);
}

// Record i of a table becomes that of w.
pub fn put_writer(t: &mut [u8], i: usize, w: Writer)
    requires { i * 40 + 40 ≤ length t.old }
    ensures { t.new ≡ patch t.old (i * 40) 40 (writer_bytes w) }
{
    put_record(t, i * 40, w);
}
