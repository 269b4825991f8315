// The nanosecond value of a time, the tests on such values, and the four on times: filter, destination order, deadline and
// autopurge. What they are stands in model's Times.
//
// Derives from instance_tracker.rs of ZeroDDS.
// Copyright 2026 ZeroDDS Contributors. SPDX-License-Identifier: Apache-2.0. Changed: written anew in Rattle; the value has a
// sign under all four, and 64 bits hold what 128 did.
#![tactic(auto)]

ghost use Rattle.std.specs.Prelude.{◌≡◌};
ghost use Rattle.std.specs.Int.{w64};
ghost use Rattle.std.proofs.Common.{SFits};
ghost use Rattle.model.specs.Times.{time_value, gap, reaches, gap_passes, is_later, elapsed, filter_admits, order_admits, deadline_missed, purge_due};

use model::MaybeTime;

// Seconds and nanoseconds in one number, below zero before the epoch.
#[tactic(auto, unfolding(model::specs::Times::time_value))]
pub fn nanos(t: MaybeTime) -> i64
    ensures { result ≡ time_value t }
{
    i64::from(numbers::of_bits(t.sec)) * 1_000_000_000 + i64::from(t.nanosec)
}

// From one value to another; below zero where the other is earlier.
pub fn gap(from: i64, to: i64) -> i64
    requires { SFits w64 (gap from to) }
    ensures { result ≡ gap from to }
{
    to - from
}

// A gap of so many nanoseconds or more. A negative one reaches nothing, not even 0.
pub fn reaches(gap: i64, nanoseconds: u64) -> bool
    ensures { result ≡ reaches gap nanoseconds }
{
    0 <= gap && nanoseconds <= gap as u64
}

// The filter's test. A value of the past is a matter of order, and is not filtered.
pub fn gap_passes(last: i64, candidate: i64, separation: u64) -> bool
    requires { SFits w64 (gap last candidate) }
    ensures { result ≡ gap_passes last candidate separation }
{
    candidate < last || reaches(gap(last, candidate), separation)
}

// The order's test.
pub fn is_later(last: i64, candidate: i64) -> bool
    ensures { result ≡ is_later last candidate }
{
    last < candidate
}

// A gap as autopurge counts it: a negative one as 0.
pub fn elapsed(gap: i64) -> u64
    ensures { result ≡ elapsed gap }
{
    gap.max(0) as u64
}

// TIME_BASED_FILTER (DDS 1.4, 2.2.3.12).
#[tactic(auto, unfolding(model::specs::Times::filter_admits))]
pub fn filter_admits(last: MaybeTime, candidate: MaybeTime, separation: u64) -> bool
    ensures { result ≡ filter_admits last candidate separation }
{
    !last.present || gap_passes(nanos(last), nanos(candidate), separation)
}

// DESTINATION_ORDER by source timestamp (DDS 1.4, 2.2.3.17).
#[tactic(auto, unfolding(model::specs::Times::order_admits))]
pub fn order_admits(last: MaybeTime, candidate: MaybeTime) -> bool
    ensures { result ≡ order_admits last candidate }
{
    !last.present || is_later(nanos(last), nanos(candidate))
}

// The owner's DEADLINE is missed (DDS 1.4, 2.2.3.9.2): its last sample is a deadline or more before now.
#[tactic(auto, unfolding(model::specs::Times::deadline_missed))]
pub fn deadline_missed(owner_at: MaybeTime, now: MaybeTime, deadline: u64) -> bool
    ensures { result ≡ deadline_missed owner_at «now» deadline }
{
    owner_at.present && reaches(gap(nanos(owner_at), nanos(now)), deadline)
}

// READER_DATA_LIFECYCLE's autopurge (DDS 1.4, 2.2.3.22): the delay has run out since. A delay of 2^64 - 1 never does.
#[tactic(auto, unfolding(model::specs::Times::purge_due))]
pub fn purge_due(since: MaybeTime, now: MaybeTime, delay: u64) -> bool
    ensures { result ≡ purge_due since «now» delay }
{
    since.present && delay != u64::MAX && delay <= elapsed(gap(nanos(since), nanos(now)))
}
