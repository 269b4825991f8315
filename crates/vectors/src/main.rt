// Published vectors and bench lines, run: 64-bit FNV-1a as its authors list it (test_fnv.c of their reference code), a GUID
// whose hash is 0, the allocator about the counter's ends, lines a, b, c, d and i of the scope document's section 10, and such
// lines before the epoch (document 02, request 7).
// Each line is the name of a case and its answer.
#![tactic(auto)]

use model::{Guid, MaybeTime};
use std::io;

// Every group of cases, in the order above.
fn main(rt: HostRuntime) -> io::Result<()> {
    fnv_prefixes(&rt)?;
    fnv_letters(&rt)?;
    fnv_chongo(&rt)?;
    handles(&rt)?;
    filter(&rt)?;
    order(&rt)?;
    deadline(&rt)?;
    purge(&rt)?;
    filter_before_epoch(&rt)?;
    purge_before_epoch(&rt)
}

// The hash of each text.
fn hashes(rt: &impl Print, texts: &[&str]) -> io::Result<()> {
    for text in texts {
        println!(rt;
            "fnv_1a {text}: {:016x}",
            instance_handle::fnv_1a(text.as_bytes())
        )?;
    }
    Ok(())
}

// The empty text and the parts of "foobar".
fn fnv_prefixes(rt: &impl Print) -> io::Result<()> {
    hashes(rt, &["", "f", "fo", "foo", "foob", "fooba", "foobar"])
}

// Single letters.
fn fnv_letters(rt: &impl Print) -> io::Result<()> {
    hashes(rt, &["a", "b", "c", "d", "e"])
}

// The parts of "chongo", and the whole line that it begins.
fn fnv_chongo(rt: &impl Print) -> io::Result<()> {
    hashes(
        rt,
        &["ch", "cho", "chon", "chong", "chongo", "chongo was here!"],
    )
}

// A GUID whose bytes hash to 0, which is nil; and the counter at nil, at its start and at its end.
fn handles(rt: &impl Print) -> io::Result<()> {
    let guid = Guid {
        hi: 0xd56b_b953_4287_0836,
        lo: 0,
    };
    let handle = instance_handle::from_guid(guid);
    println!(rt; "from_guid {:016x} {}: {}", guid.hi, guid.lo, handle.0)?;
    for counter in [0, 1, u64::MAX] {
        allocation(rt, counter)?;
    }
    Ok(())
}

// The handle given at a counter, and the counter after it.
fn allocation(rt: &impl Print, counter: u64) -> io::Result<()> {
    let step = instance_handle::allocate_step(counter);
    println!(rt;
        "allocate_step {counter}: {}, then {}",
        step.handle.0, step.counter
    )
}

// A decision, as yes or no.
fn decision(rt: &impl Print, text: &str, yes: bool) -> io::Result<()> {
    println!(rt; "{text}: {}", if yes { "yes" } else { "no" })
}

// A time that is there.
fn time(sec: i32, nanosec: u32) -> MaybeTime {
    MaybeTime {
        present: true,
        sec: sec.cast_unsigned(),
        nanosec,
    }
}

// The filter's decision on a sample after another.
fn passes(
    rt: &impl Print,
    text: &str,
    last: MaybeTime,
    candidate: MaybeTime,
    separation: u64,
) -> io::Result<()> {
    decision(
        rt,
        text,
        sample_time::filter_admits(last, candidate, separation),
    )
}

// Whether an instance is purged a delay after its end.
fn due(
    rt: &impl Print,
    text: &str,
    since: MaybeTime,
    now: MaybeTime,
    delay: u64,
) -> io::Result<()> {
    decision(rt, text, sample_time::purge_due(since, now, delay))
}

// Line a.
fn filter(rt: &impl Print) -> io::Result<()> {
    let last = time(5, 0);
    passes(rt, "a. (4,0)", last, time(4, 0), 1_000_000_000)?;
    passes(
        rt,
        "a. (5,999999999)",
        last,
        time(5, 999_999_999),
        1_000_000_000,
    )?;
    passes(rt, "a. (6,0)", last, time(6, 0), 1_000_000_000)
}

// Lines b and c.
fn order(rt: &impl Print) -> io::Result<()> {
    let last = time(5, 0);
    decision(rt, "b. (5,0)", sample_time::order_admits(last, time(5, 0)))?;
    decision(rt, "b. (5,1)", sample_time::order_admits(last, time(5, 1)))?;
    decision(
        rt,
        "c. (-9,8)",
        sample_time::order_admits(time(-3, 7), time(-9, 8)),
    )
}

// Line d, up to the deadline.
fn deadline(rt: &impl Print) -> io::Result<()> {
    decision(
        rt,
        "d. (-1,0)",
        sample_time::deadline_missed(time(-2, 0), time(-1, 0), 1_000_000_000),
    )
}

// Line i.
fn purge(rt: &impl Print) -> io::Result<()> {
    let since = time(0, 10);
    due(rt, "i. 5 (0,14)", since, time(0, 14), 5)?;
    due(rt, "i. 5 (0,15)", since, time(0, 15), 5)?;
    due(rt, "i. 0 (0,3)", since, time(0, 3), 0)
}

// Request 7: line a ten seconds earlier, and across the epoch.
fn filter_before_epoch(rt: &impl Print) -> io::Result<()> {
    let last = time(-5, 0);
    passes(rt, "7. (-6,0)", last, time(-6, 0), 1_000_000_000)?;
    passes(
        rt,
        "7. (-5,999999999)",
        last,
        time(-5, 999_999_999),
        1_000_000_000,
    )?;
    passes(rt, "7. (-4,0)", last, time(-4, 0), 1_000_000_000)?;
    passes(rt, "7. 1 (0,0)", time(-1, 999_999_999), time(0, 0), 1)?;
    passes(rt, "7. 2 (0,0)", time(-1, 999_999_999), time(0, 0), 2)
}

// Request 7: line i a second earlier, a second apart, and a delay of 1 with now before the time.
fn purge_before_epoch(rt: &impl Print) -> io::Result<()> {
    let since = time(-1, 10);
    due(rt, "7. 5 (-1,14)", since, time(-1, 14), 5)?;
    due(rt, "7. 5 (-1,15)", since, time(-1, 15), 5)?;
    due(rt, "7. 1000000000 (0,9)", since, time(0, 9), 1_000_000_000)?;
    due(
        rt,
        "7. 1000000000 (0,10)",
        since,
        time(0, 10),
        1_000_000_000,
    )?;
    due(rt, "7. 0 (-1,3)", since, time(-1, 3), 0)?;
    due(rt, "7. 1 (-1,3)", since, time(-1, 3), 1)
}
