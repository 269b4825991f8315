// The calls on every instance, and the loss of several writers, each as a pass over the lent table: record by record an
// instance is changed where it stands, or purged and the others closed up, and the handles of those listed go to the front of
// Out. Whether a call concerns a record is told from few of its bytes.
//
// Derives from instance_tracker.rs of ZeroDDS.
// Copyright 2026 ZeroDDS Contributors. SPDX-License-Identifier: Apache-2.0. Changed: written anew in Rattle, with the
// instances as a table of records in lent bytes and every such call as a step on each.
#![tactic(auto)]

ghost use Rattle.std.specs.Prelude.{true, cond, List, ◌≡◌, ℕ, ◌+◌, ◌*◌, ◌≤◌, ◌<◌, length};
ghost use Rattle.octets.specs.Lay.{All};
ghost use Rattle.octets.specs.Octets.{put};
ghost use Rattle.octets.specs.Patch.{patch};
ghost use Rattle.model.specs.declared.InstanceCall.TheVariants.{Autopurge, DropWriter, UpdateOwnerStrength};
ghost use Rattle.model.specs.InstanceCalls.{instance_call};
ghost use Rattle.model.specs.InstanceRecord.{instance_of};
ghost use Rattle.model.specs.Instances.{on_every, purged, strength_updated};
ghost use Rattle.model.specs.State.{instances_in};
ghost use Rattle.instance_decoding.specs.Parts.{record_at};
ghost use Rattle.writer_set_bytes.specs.Lists.{gones_in, Listed};
ghost use Rattle.instance_edits.specs.Edits.{Formed};
ghost use Rattle.instance_loss.specs.Lost.{Within};
ghost use Rattle.instance_table.specs.TableCalls.{TableFormed, state_with};
ghost use Rattle.instance_pass.specs.EveryCalls.{answer_as, LeavesTableAndOut};
ghost use Rattle.instance_pass.specs.Passes.{Editable, Ahead, TookOne, EditedAt, Passed, with_told};
ghost use Rattle.instance_pass.specs.Purges.{PurgedOne};
ghost use Rattle.instance_pass.specs.Steps.{call_act, loss_act, loss_by, owns_as, cleared_as, owner_act};

use instance_edits::Span;
use instance_loss::{Loss, Told};
use instance_table::TableCall;
use model::{Answer, Guid, InstanceCall, InstanceHandle, MaybeTime, Report, Sheet};
use writer_set_bytes::Gone;

// How many instances stay and are listed, and what was counted.
#[derive(Clone, Copy)]
pub struct PassCounts {
    pub kept: usize,
    pub listed: usize,
    pub counted: usize,
}

// The handle h is noted behind l others.
fn note(out: &mut [u8], l: usize, yes: bool, h: u64)
    requires { (l < 128) × (l * 8 + 8 ≤ length out.old) }
    ensures { out.new ≡ cond yes (put 8 out.old (l * 8) h) out.old }
{
    if yes {
        octets::put_u64(out, l * 8, h);
    }
}

// ---- writers lost

// From the first GUID of a list that rises to its last; of a list with none, any span.
fn span_of(gone: &Gone) -> Span
    ensures { All (Within result) (gones_in gone.now.list.now) }
{
    let n = gone.list.len() / 16;
    if n == 0 {
        let g = guid::nil();
        return Span { low: g, high: g };
    }
    let low = guid::guid_at(gone.list, 0);
    let high = guid::guid_at(gone.list, n * 16 - 16);
    Span { low, high }
}

// The counts with one instance more, which stays.
fn with_told(c: PassCounts, r: Told) -> PassCounts
    requires { (c.kept < 128) × (c.listed < 128) × (c.counted ≤ 32768) }
    ensures { result ≡ with_told c r }
{
    PassCounts {
        kept: c.kept + 1,
        listed: c.listed + usize::from(r.left),
        counted: c.counted + usize::from(r.cleared),
    }
}

// The writers of a loss are lost to the instance of record i.
fn lose_at(pens: &mut [u8], out: &mut [u8], i: usize, tally: PassCounts, loss: &Loss) -> PassCounts
    requires { Ahead pens.old out.old i tally × Formed (record_at pens.old i) }
    ensures { TookOne (loss_by loss.now.clears (gones_in loss.now.gone.list.now) loss.now.at) (instance_of (record_at pens.old i)) pens.old out.old tally pens.new out.new result }
{
    let from = i * 512;
    let end = from + 512;
    let h = instance_decoding::handle_at(pens, i);
    let told = instance_loss::lose(&mut pens[from..end], loss);
    note(out, tally.listed, told.left, h.0);
    with_told(tally, told)
}

// They are lost to the first count instances.
fn lose_over(pens: &mut [u8], out: &mut [u8], count: usize, loss: &Loss) -> PassCounts
    requires { Editable count pens.old × (1024 ≤ length out.old) }
    ensures { Passed (loss_by loss.now.clears (gones_in loss.now.gone.list.now) loss.now.at) (instances_in count pens.old) pens.old out.old pens.new out.new result }
{
    let mut tally = PassCounts {
        kept: 0,
        listed: 0,
        counted: 0,
    };
    for i in 0..count {
        tally = lose_at(pens, out, i, tally, loss);
    }
    tally
}

// The writers of a list are lost to the first count instances: dropped and, where that is asked for, cleared as owners.
fn lose_every(
    pens: &mut [u8],
    out: &mut [u8],
    count: usize,
    list: &[u8],
    at: MaybeTime,
    clears: bool,
) -> PassCounts
    requires { Editable count pens.old × Listed list.now × (1024 ≤ length out.old) }
    ensures { Passed (loss_by clears (gones_in list.now) at) (instances_in count pens.old) pens.old out.old pens.new out.new result }
{
    let mut guesses = [0u8; 1024]; // made once for all instances
    writer_set_bytes::note_guesses(list, &mut guesses);
    let gone = Gone {
        list,
        guesses: &guesses,
    };
    let span = span_of(&gone);
    let loss = Loss {
        gone,
        span,
        at,
        clears,
    };
    lose_over(pens, out, count, &loss)
}

// The writers of a list are lost, one after the other: codes 7 and 18 for each.
pub fn lose_writers(
    pens: &mut [u8],
    out: &mut [u8],
    count: usize,
    gone: &[u8],
    at: MaybeTime,
) -> PassCounts
    requires { Editable count pens.old × Listed gone.now × (1024 ≤ length out.old) }
    ensures { Passed (loss_act (gones_in gone.now) at) (instances_in count pens.old) pens.old out.old pens.new out.new result }
{
    if gone.len() < 16 {
        return PassCounts {
            kept: count,
            listed: 0,
            counted: 0,
        };
    }
    lose_every(pens, out, count, gone, at, true)
}

// Code 7: the writer of the sheet alone, and no owner is cleared.
fn drop_writer(pens: &mut [u8], out: &mut [u8], count: usize, s: Sheet) -> PassCounts
    requires { Editable count pens.old × (1024 ≤ length out.old) }
    ensures { Passed (call_act DropWriter s) (instances_in count pens.old) pens.old out.old pens.new out.new result }
{
    let mut gone = [0u8; 16];
    guid::put_guid(&mut gone, 0, s.guid);
    let at = instance_fields::if_present(s.time_1);
    lose_every(pens, out, count, &gone, at, false)
}

// ---- owners

// The owner of record i has another strength, if it is g.
fn strength_at(pens: &mut [u8], i: usize, g: Guid, strength: u32)
    requires { i * 512 + 512 ≤ length pens.old }
    ensures { EditedAt (strength_updated g strength) i pens.old pens.new }
{
    let from = i * 512;
    let end = from + 512;
    if instance_edits::owner_is(&pens[from..end], g) {
        instance_edits::put_strength(&mut pens[from..end], strength);
    }
}

// Code 17.
fn set_strengths(pens: &mut [u8], count: usize, s: Sheet) -> PassCounts
    requires { (count ≤ 128) × (count * 512 ≤ length pens.old) }
    ensures { (out : List ℕ) → 1024 ≤ length out → Passed (call_act UpdateOwnerStrength s) (instances_in count pens.old) pens.old out pens.new out result }
{
    for i in 0..count {
        strength_at(pens, i, s.guid, s.second);
    }
    PassCounts {
        kept: count,
        listed: 0,
        counted: 0,
    }
}

// Whether the owner is g, or of its participant.
fn owned_in(r: &[u8], g: Guid, prefix: bool) -> bool
    requires { length r.now ≡ 512 }
    ensures { result ≡ owns_as prefix g (instance_of r.now).state.owner }
{
    if prefix {
        return instance_edits::owner_of_prefix(r, g);
    }
    instance_edits::owner_is(r, g)
}

// The owner of record i is cleared, if it is g or of its participant. Whether it was.
fn owner_at(pens: &mut [u8], i: usize, g: Guid, prefix: bool) -> bool
    requires { i * 512 + 512 ≤ length pens.old }
    ensures { (result ≡ owns_as prefix g (instance_of (record_at pens.old i)).state.owner) × EditedAt (cleared_as prefix g) i pens.old pens.new }
{
    let from = i * 512;
    let end = from + 512;
    let yes = owned_in(&pens[from..end], g, prefix);
    if yes {
        instance_edits::clear_owner(&mut pens[from..end]);
    }
    yes
}

// Codes 18 and 19.
fn clear_owners(pens: &mut [u8], count: usize, g: Guid, prefix: bool) -> PassCounts
    requires { (count ≤ 128) × (count * 512 ≤ length pens.old) }
    ensures { (out : List ℕ) → 1024 ≤ length out → Passed (owner_act prefix g) (instances_in count pens.old) pens.old out pens.new out result }
{
    let mut n = 0;
    for i in 0..count {
        n += usize::from(owner_at(pens, i, g, prefix));
    }
    PassCounts {
        kept: count,
        listed: 0,
        counted: n,
    }
}

// ---- code 21

// Record i, which stays as it is, goes to place k, where it may stand already.
fn close_up(pens: &mut [u8], k: usize, i: usize)
    requires { (k ≤ i) × (i * 512 + 512 ≤ length pens.old) }
    ensures { pens.new ≡ patch pens.old (k * 512) 512 (record_at pens.old i) }
{
    if k != i {
        octets::move_down(pens, k * 512, i * 512, 512);
    }
}

// Whether the instance of a record is purged: its kind, in the two highest bits of the flags, says since when and which delay.
fn purged_in(r: &[u8], s: &Sheet) -> bool
    requires { length r.now ≡ 512 }
    ensures { result ≡ purged s.now (instance_of r.now).state }
{
    let f = octets::get_u16(r, 24);
    if f < 16384 {
        return false;
    }
    if f < 32768 {
        let since = instance_decoding::read_time(r, 68, f / 512 % 2 == 1);
        return sample_time::purge_due(since, s.time_2, s.a);
    }
    let since = instance_decoding::read_time(r, 76, f / 256 % 2 == 1);
    sample_time::purge_due(since, s.time_2, s.b)
}

// Record i goes behind the k kept, unless it is purged. How many are kept then.
fn purge_at(pens: &mut [u8], i: usize, k: usize, s: &Sheet) -> usize
    requires { (k ≤ i) × (i < 128) × (i * 512 + 512 ≤ length pens.old) }
    ensures { PurgedOne (purged s.now (instance_of (record_at pens.old i)).state) i k pens.old pens.new result }
{
    let from = i * 512;
    let end = from + 512;
    if purged_in(&pens[from..end], s) {
        return k;
    }
    close_up(pens, k, i);
    k + 1
}

// The instances whose delay has run out are taken out of the table; Out has no part in it.
fn purge(pens: &mut [u8], count: usize, s: Sheet) -> PassCounts
    requires { (count ≤ 128) × (count * 512 ≤ length pens.old) }
    ensures { (out : List ℕ) → 1024 ≤ length out → Passed (call_act Autopurge s) (instances_in count pens.old) pens.old out pens.new out result }
{
    let mut k = 0;
    for i in 0..count {
        k = purge_at(pens, i, k, &s);
    }
    instance_table::truncate(pens, k, count);
    PassCounts {
        kept: k,
        listed: 0,
        counted: count - k,
    }
}

// ---- the calls on every instance

// The pass of a call, by what it reports: the one that reports nothing is an update of the owner's strength.
fn call_pass(pens: &mut [u8], out: &mut [u8], count: usize, c: InstanceCall, s: Sheet) -> PassCounts
    requires { (on_every c ≡ true) × Editable count pens.old × (1024 ≤ length out.old) }
    ensures { Passed (call_act c s) (instances_in count pens.old) pens.old out.old pens.new out.new result }
{
    match instance_rules::rule_of(c).reports {
        Report::Nothing => set_strengths(pens, count, s),
        Report::Left => drop_writer(pens, out, count, s),
        Report::Owner => clear_owners(pens, count, s.guid, false),
        Report::Prefix => clear_owners(pens, count, s.guid, true),
        Report::Purge => purge(pens, count, s),
    }
}

// What a call answers, from the counts of its pass.
fn answered(k: Report, t: PassCounts) -> Answer
    requires { (t.listed ≤ 128) × (t.counted ≤ 32768) }
    ensures { result ≡ answer_as k t.listed t.counted }
{
    match k {
        Report::Nothing => answers::silent(),
        Report::Left => answers::listing(t.listed as u32),
        Report::Owner | Report::Prefix | Report::Purge => answers::counting(t.counted as u32),
    }
}

// A call on every instance: codes 7, 17, 18, 19 and 21. None of them is refused late, and none starts an instance.
pub fn every_call(
    c: InstanceCall,
    s: Sheet,
    pens: &mut [u8],
    out: &mut [u8],
    places: usize,
    count: u32,
    next: InstanceHandle,
) -> TableCall
    requires { TableFormed places count next.0 pens.old × (1024 ≤ length out.old) × (on_every c ≡ true) }
    ensures { LeavesTableAndOut places (instance_call places c s (state_with (instances_in count pens.old) next.0)) out.old result pens.new out.new }
{
    let tally = call_pass(pens, out, count as usize, c, s);
    TableCall {
        answer: answered(instance_rules::rule_of(c).reports, tally),
        count: tally.kept as u32,
        next_handle: next,
    }
}
