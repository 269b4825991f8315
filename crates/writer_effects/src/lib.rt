// One writer and what the tracker calls do to it, by value. What each is stands in model's Writers.
//
// Derives from liveliness_tracker.rs of ZeroDDS (DDS 1.4, 2.2.3.11 and 2.2.4.1).
// Copyright 2026 ZeroDDS Contributors. SPDX-License-Identifier: Apache-2.0. Changed: written anew in Rattle, each effect
// as a function of the writer's value.
#![tactic(auto)]

ghost use Rattle.std.specs.Prelude.{◌&&◌, ◌≡◌};
ghost use Rattle.std.proofs.Math.Option.{none, some};
ghost use Rattle.model.specs.State.{class_of, is_alive_class, is_not_alive_class};
ghost use Rattle.model.specs.Writers.{is_tracked, is_not_alive, is_automatic, covers_kind, has_guid, lease_on, matched_as, matched_writer, with_state, covers, renews, departed};
ghost use Rattle.writer_effects.specs.Acts.{assertion_of};

use model::{Guid, Liveliness, LivelinessKind, MaybeLease, Sheet, Writer, WriterState};

// An assertion: whom it names or whose prefix it gives, whether it names that writer, whether it is manual, and its clock.
#[derive(Clone, Copy)]
pub struct Assertion {
    pub guid: Guid,
    pub named: bool,
    pub manual: bool,
    pub clock: u64,
}

// Whether a state is one of a tracked writer: matched and not departed.
pub fn is_tracked(s: WriterState) -> bool
    ensures { result ≡ is_tracked s }
{
    !matches!(s, WriterState::Departed)
}

// Whether a state is not alive, and not departed.
fn is_not_alive(s: WriterState) -> bool
    ensures { result ≡ is_not_alive s }
{
    matches!(s, WriterState::NotAlive)
}

// Whether a state is counted as alive.
pub fn counts_alive(s: WriterState) -> bool
    ensures { result ≡ is_alive_class (class_of s) }
{
    matches!(s, WriterState::Alive)
}

// Whether a state is counted as not alive.
pub fn counts_not_alive(s: WriterState) -> bool
    ensures { result ≡ is_not_alive_class (class_of s) }
{
    matches!(s, WriterState::NotAlive | WriterState::Departed)
}

// Whether a kind is automatic.
pub fn is_automatic(k: LivelinessKind) -> bool
    ensures { result ≡ is_automatic k }
{
    matches!(k, LivelinessKind::Automatic)
}

// Whether an assertion by a participant covers a kind.
fn covers_kind(k: LivelinessKind, manual: bool) -> bool
    ensures { result ≡ covers_kind k manual }
{
    match k {
        LivelinessKind::Automatic => true,
        LivelinessKind::ManualByParticipant => manual,
        LivelinessKind::ManualByTopic => false, // by name alone
    }
}

// Whether the assertion names the writer.
fn names(a: Assertion, w: Writer) -> bool
    ensures { result ≡ (a.named && has_guid a.guid w) }
{
    a.named && guid::is_same(w.guid, a.guid)
}

// Whether the assertion covers the writer: it names it, or covers its kind at the same prefix.
#[tactic(auto, unfolding(model::specs::Writers::covers))]
pub fn covers(a: Assertion, w: Writer) -> bool
    ensures { result ≡ covers (assertion_of a) w }
{
    names(a, w) || guid::same_prefix(w.guid, a.guid) && covers_kind(w.liveliness.kind, a.manual)
}

// Whether the assertion acts on the writer: it is later than the last, or equal and the writer not yet not alive.
#[tactic(auto, unfolding(model::specs::Writers::renews))]
pub fn renews(a: Assertion, w: Writer) -> bool
    ensures { result ≡ renews (assertion_of a) w }
{
    let Liveliness {
        state,
        last_assertion,
        ..
    } = w.liveliness;
    is_tracked(state)
        && (last_assertion < a.clock || last_assertion == a.clock && !is_not_alive(state))
}

// The writer with another state and last assertion.
pub fn with_state(w: Writer, state: WriterState, last: u64) -> Writer
    ensures { result ≡ with_state state last w }
{
    Writer {
        liveliness: Liveliness {
            state,
            last_assertion: last,
            ..w.liveliness
        },
        ..w
    }
}

// The lease on the sheet.
fn lease_on(sheet: Sheet) -> MaybeLease
    ensures { result ≡ lease_on sheet }
{
    if sheet.lease_present {
        MaybeLease {
            present: true,
            nanos: sheet.b,
        }
    } else {
        MaybeLease {
            present: false,
            nanos: 0,
        }
    }
}

// A writer with the GUID, kind and lease on the sheet.
fn matched_as(sheet: Sheet, state: WriterState, last: u64) -> Writer
    ensures { result ≡ matched_as sheet state last }
{
    Writer {
        guid: sheet.guid,
        liveliness: Liveliness {
            kind: writer_record::kind_numbered(sheet.kind),
            state,
            lease: lease_on(sheet),
            last_assertion: last,
        },
    }
}

// The writer that a match starts: it has asserted nothing yet.
pub fn first_matched(sheet: Sheet) -> Writer
    ensures { result ≡ matched_writer sheet none }
{
    matched_as(sheet, WriterState::Unasserted, sheet.a)
}

// The writer that a match leaves where there is a record: a tracked one keeps its state, a departed one comes back not
// alive at 0.
pub fn matched_again(sheet: Sheet, w: Writer) -> Writer
    ensures { result ≡ matched_writer sheet (some w) }
{
    if is_tracked(w.liveliness.state) {
        matched_as(sheet, w.liveliness.state, w.liveliness.last_assertion)
    } else {
        matched_as(sheet, WriterState::NotAlive, 0)
    }
}

// The record of a writer that departed: only GUID and state.
pub fn departed(guid: Guid) -> Writer
    ensures { result ≡ departed guid }
{
    Writer {
        guid,
        liveliness: Liveliness {
            kind: LivelinessKind::Automatic,
            state: WriterState::Departed,
            lease: MaybeLease {
                present: false,
                nanos: 0,
            },
            last_assertion: 0,
        },
    }
}
