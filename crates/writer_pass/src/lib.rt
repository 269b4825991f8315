// Passes over the writer table, record by record: an assertion acts on the writers of its participant, the classes are told,
// and the leases that ran out are found, with the next one due, and declared.
//
// Derives from liveliness_tracker.rs of ZeroDDS (renew_participant and expire).
// Copyright 2026 ZeroDDS Contributors. SPDX-License-Identifier: Apache-2.0. Changed: written anew in Rattle, over records
// in lent bytes.
#![tactic(auto)]

ghost use Rattle.std.specs.Prelude.{true, false, not, ◌&&◌, cond, ◌++◌, map, ◌≡◌, ◌+◌, ◌-◌, ◌*◌, ◌≤◌, ◌<◌, ◌^◌, length, take, drop, Some};
ghost use Rattle.octets.specs.Lay.{lay};
ghost use Rattle.octets.specs.Patch.{patch};
ghost use Rattle.model.specs.declared.WriterState.TheVariants.{Alive};
ghost use Rattle.model.specs.Guids.{num, prefix, guid_bytes, guids_in};
ghost use Rattle.model.specs.State.{writer_key, counts_alive, counts_not_alive, writers_in, lost_of};
ghost use Rattle.model.specs.Tables.{pick, rising};
ghost use Rattle.model.specs.Writers.{asserted, with_state, is_alive_state, expires, expired, guid_in, last_after};
ghost use Rattle.model.specs.WriterRecord.{writer_bytes};
ghost use Rattle.writer_record.specs.Records.{lapsed};
ghost use Rattle.writer_effects.specs.Acts.{assertion_of};
ghost use Rattle.writer_pass.specs.Passes.{writer_in, Bounded, Sound, acts, counts_of, raised, tally_of, soonest, dues_with, dues_of};

use model::{Guid, MaybeDue, Writer, WriterState};
use writer_effects::Assertion;

// How many writers are of each class that is counted.
#[derive(Clone, Copy)]
pub struct Counts {
    pub alive: u32,
    pub not_alive: u32,
}

// What a pass leaves by value: the counts, how many changed class, and the last writer after them.
#[derive(Clone, Copy)]
pub struct Tally {
    pub counts: Counts,
    pub moved: u32,
    pub last: Option<Guid>,
}

// How many writers expire, and when the next lease of the others runs out.
#[derive(Clone, Copy)]
pub struct Dues {
    pub gone: u32,
    pub next: MaybeDue,
}

// Whether an assertion covers the writer and acts on it.
fn asserts(a: Assertion, w: Writer) -> bool
    ensures { result ≡ acts a w }
{
    writer_effects::covers(a, w) && writer_effects::renews(a, w)
}

// One less, where it is so.
fn one_less(yes: bool, n: u32) -> u32
    requires { yes ≡ true → 1 ≤ n }
    ensures { result ≡ cond yes (n - 1) n }
{
    n - u32::from(yes)
}

// The tally once w, which is not among the alive ones, is: it moves to them from the class that it was of.
fn raise(tally: Tally, w: Writer) -> Tally
    requires { (tally.counts.alive ≤ 128) × (tally.moved ≤ 128) × (counts_not_alive w ≡ true → 1 ≤ tally.counts.not_alive) × (counts_alive w ≡ false) }
    ensures { result ≡ raised tally w }
{
    let was_not = writer_effects::counts_not_alive(w.liveliness.state);
    Tally {
        counts: Counts {
            alive: tally.counts.alive + 1,
            not_alive: one_less(was_not, tally.counts.not_alive),
        },
        moved: tally.moved + 1,
        last: Some(w.guid),
    }
}

// The assertion at record i, whose writer is w: a record on which it does not act is not written. Whether it moves the writer
// to the alive ones.
fn assert_at(t: &mut [u8], i: usize, w: Writer, a: Assertion) -> bool
    requires { i * 40 + 40 ≤ length t.old }
    ensures { (t.new ≡ cond (acts a w) (patch t.old (i * 40) 40 (writer_bytes (with_state Alive a.clock w))) t.old)
        × (result ≡ (acts a w && not (counts_alive w))) }
{
    if !asserts(a, w) {
        return false;
    }
    let v = writer_effects::with_state(w, WriterState::Alive, a.clock);
    writer_record::put_writer(t, i, v);
    !writer_effects::counts_alive(w.liveliness.state)
}

// The least GUID of the prefix of g.
fn first_of(g: Guid) -> Guid
    ensures { num result ≡ prefix g * 2 ^ 32 }
{
    Guid {
        hi: g.hi,
        lo: g.lo / 4294967296 * 4294967296,
    }
}

// The assertion on the first count writers, of which it concerns those of its prefix alone. They stand together, as the
// table rises. The counts are those of the table before.
pub fn assert_writers(
    t: &mut [u8],
    count: usize,
    a: Assertion,
    counts: Counts,
    last: Option<Guid>,
) -> Tally
    requires { Sound count t.old × (rising writer_key (writers_in count t.old) ≡ true) × (counts ≡ counts_of (writers_in count t.old)) }
    ensures { (t.new ≡ lay writer_bytes 40 (length t.old) (map (asserted (assertion_of a)) (writers_in count t.old)))
        × (result ≡ tally_of (asserted (assertion_of a)) last (writers_in count t.old)) }
{
    let mut tally = Tally {
        counts,
        moved: 0,
        last,
    };
    let from = tables::lower_bound(t, 40, count, first_of(a.guid));
    for i in from..count {
        let w = writer_record::writer_at(t, i);
        if !guid::same_prefix(w.guid, a.guid) {
            return tally;
        }
        if assert_at(t, i, w, a) { // most assertions move none, and then the tally is not copied
            tally = raise(tally, w);
        }
    }
    tally
}

// The earlier of a lease that runs out at `due` and one that is due.
fn sooner_of(due: u64, d: MaybeDue) -> MaybeDue
    ensures { result ≡ soonest due d }
{
    MaybeDue {
        present: true,
        at: if d.present { due.min(d.at) } else { due },
    }
}

// The dues with a writer more, whose lease runs out at `due`.
fn dues_with(d: Dues, due: u64, clock: u64) -> Dues
    requires { d.gone < 128 }
    ensures { result ≡ dues_with d due clock }
{
    let next = d.next;
    let sooner = sooner_of(due, next);
    if due <= clock {
        return Dues {
            gone: d.gone + 1,
            next: next,
        };
    }
    Dues {
        gone: d.gone,
        next: sooner,
    }
}

// How many of the first count writers expire at the clock, and when the next lease of the others runs out.
pub fn find_dues(t: &[u8], count: usize, clock: u64) -> Dues
    requires { Sound count t.now }
    ensures { result ≡ dues_of clock (writers_in count t.now) }
{
    let mut d = Dues {
        gone: 0,
        next: MaybeDue {
            present: false,
            at: 0,
        },
    };
    for i in (0..count).rev() {
        if writer_record::leased_at(t, i) {
            d = dues_with(d, writer_record::due_at(t, i), clock);
        }
    }
    d
}

// Whether the lease of the writer of record i has run out at the clock.
fn expires_at(t: &[u8], i: usize, clock: u64) -> bool
    requires { (i * 40 + 40 ≤ length t.now) × Bounded (writer_in t.now i) }
    ensures { result ≡ expires clock (writer_in t.now i) }
{
    writer_record::leased_at(t, i) && writer_record::due_at(t, i) <= clock
}

// The writer of record i becomes not alive, and its GUID goes to Lost at place `at`; it is the last writer then.
fn declare_at(t: &mut [u8], i: usize, lost: &mut [u8], at: usize) -> Option<Guid>
    requires { (i * 40 + 40 ≤ length t.old) × (at * 16 + 16 ≤ length lost.old)
        × (writer_bytes (writer_in t.old i) ≡ take 40 (drop (i * 40) t.old)) × (is_alive_state (writer_in t.old i).liveliness.state ≡ true) }
    ensures { (t.new ≡ patch t.old (i * 40) 40 (writer_bytes (lapsed (writer_in t.old i))))
        × (lost.new ≡ patch lost.old (at * 16) 16 (guid_bytes (writer_in t.old i).guid))
        × (result ≡ Some (writer_in t.old i).guid) }
{
    let g = guid::guid_at(t, i * 40);
    writer_record::expire_at(t, i);
    guid::put_guid(lost, at * 16, g);
    Some(g)
}

// Those of the first count writers that expire at the clock become not alive, and their GUIDs go to Lost, behind the n that
// are there. There are `gone` of them; the last writer after them is returned.
pub fn declare(
    t: &mut [u8],
    count: usize,
    clock: u64,
    lost: &mut [u8],
    n: usize,
    gone: u32,
    last: Option<Guid>,
) -> Option<Guid>
    requires { Sound count t.old × (length lost.old ≡ 4096) × (lost_of (guids_in n lost.old) ≡ lost.old)
        × (gone ≡ length (pick (expires clock) (writers_in count t.old))) × (n + gone ≤ 256) }
    ensures { (t.new ≡ lay writer_bytes 40 (length t.old) (map (expired clock) (writers_in count t.old)))
        × (lost.new ≡ lost_of (guids_in n lost.old ++ map guid_in (pick (expires clock) (writers_in count t.old))))
        × (result ≡ last_after (map guid_in (pick (expires clock) (writers_in count t.old))) last) }
{
    if gone == 0 {
        return last;
    }
    let mut newest = last;
    let mut at = n;
    for i in 0..count {
        if expires_at(t, i, clock) {
            newest = declare_at(t, i, lost, at);
            at += 1;
        }
    }
    newest
}
