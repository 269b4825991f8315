// The writers of a list lost to one instance, in its record: they are taken out of its set, and its owner is cleared where it
// is one of them. Whether any of them concerns the record is told from few of its bytes.
//
// Derives from instance_tracker.rs of ZeroDDS.
// Copyright 2026 ZeroDDS Contributors. SPDX-License-Identifier: Apache-2.0. Changed: written anew in Rattle, over records in
// lent bytes, and for several writers at once.
#![tactic(auto)]

ghost use Rattle.std.specs.Prelude.{true, ◌&&◌, ◌≡◌, length};
ghost use Rattle.octets.specs.Lay.{All};
ghost use Rattle.model.specs.InstanceRecord.{flag, flags_at, instance_of, instance_bytes};
ghost use Rattle.writer_set_bytes.specs.Lists.{gones_in};
ghost use Rattle.instance_edits.specs.Edits.{changed, Formed};
ghost use Rattle.instance_edits.specs.Losses.{emptied_by, dropped_of, owned_by};
ghost use Rattle.instance_loss.specs.Lost.{Within, within-prop, ClearedIf, lost_by, told_of};

use instance_edits::Span;
use model::MaybeTime;
use writer_set_bytes::Gone;

// Whether the instance is left writerless, and whether its owner was cleared.
#[derive(Clone, Copy)]
pub struct Told {
    pub left: bool,
    pub cleared: bool,
}

// The loss of some writers, all of them within a span: since when an instance that it leaves writerless is so, and whether an
// owner among them is cleared.
#[derive(Clone, Copy)]
pub struct Loss<'a> {
    pub gone: Gone<'a>,
    pub span: Span,
    pub at: MaybeTime,
    pub clears: bool,
    pub ghost within: { All (Within span) (gones_in gone.list.now) } by { within-prop span (gones_in gone.list.now) },
}

// ---- the set

// The writers of the list are dropped from the set. Whether that leaves the instance writerless.
fn drop_listed(s: &mut [u8], gone: &Gone, at: MaybeTime) -> bool
    requires { Formed s.old }
    ensures { (s.new ≡ instance_bytes (changed (dropped_of (gones_in gone.now.list.now) at) (instance_of s.old)))
        × (result ≡ emptied_by (gones_in gone.now.list.now) (instance_of s.old).state) }
{
    let n = (octets::get_u16(s, 24) % 32) as usize;
    let k = writer_set_bytes::keep_others(&mut s[256..512], n, gone);
    instance_edits::write_remainder(s, n, k, at)
}

// The same of a loss: a set apart from its span stays as it is.
fn drop_within(s: &mut [u8], loss: &Loss) -> bool
    requires { Formed s.old }
    ensures { (s.new ≡ instance_bytes (changed (dropped_of (gones_in loss.now.gone.list.now) loss.now.at) (instance_of s.old)))
        × (result ≡ emptied_by (gones_in loss.now.gone.list.now) (instance_of s.old).state) }
{
    if instance_edits::set_apart(s, loss.span) {
        return false;
    }
    drop_listed(s, &loss.gone, loss.at)
}

// ---- the owner

// Whether the owner is to be cleared, as it is in the list. One apart from the span is not.
fn owner_goes(s: &[u8], loss: &Loss) -> bool
    requires { length s.now ≡ 512 }
    ensures { result ≡ (loss.now.clears && owned_by (gones_in loss.now.gone.list.now) (instance_of s.now).state.owner) }
{
    loss.clears
        && !instance_edits::owner_apart(s, loss.span)
        && instance_edits::owner_listed(s, &loss.gone)
}

// The owner is cleared where it is to be.
fn clear_if(s: &mut [u8], yes: bool)
    requires { (length s.old ≡ 512) × (yes ≡ true → flag 128 (flags_at s.old) ≡ true) }
    ensures { ClearedIf yes s.old s.new }
{
    if yes {
        instance_edits::clear_owner(s);
    }
}

// ---- both

// The writers of the list are lost: dropped and, where that is asked for, cleared as owner.
pub fn lose(s: &mut [u8], loss: &Loss) -> Told
    requires { Formed s.old }
    ensures { (s.new ≡ instance_bytes (changed (lost_by loss.now.clears (gones_in loss.now.gone.list.now) loss.now.at) (instance_of s.old)))
        × (result ≡ told_of loss.now.clears (gones_in loss.now.gone.list.now) (instance_of s.old).state) }
{
    let cleared = owner_goes(s, loss);
    let left = drop_within(s, loss);
    clear_if(s, cleared);
    Told { left, cleared }
}
