// Handles handed out by an allocator, and walks over tables of two instances, run. Each line is a case and its answer.
#![tactic(auto)]

use model::{FoundHandle, Head};
use std::io;

// Every group of cases.
fn main(rt: HostRuntime) -> io::Result<()> {
    for counter in [0, 1, u64::MAX] {
        allocation(&rt, counter)?;
    }
    no_instance(&rt)?;
    two_instances(&rt)?;
    small_table(&rt)?;
    wrong_length(&rt)?;
    wrong_form(&rt)
}

// The handle that an allocator at the counter gives, and the counter after it.
fn allocation(rt: &impl Print, counter: u64) -> io::Result<()> {
    let step = handle_allocator::allocate_at(counter);
    println!(rt;
        "allocate at {counter}: {}, then {}",
        step.handle.0, step.counter
    )
}

// The table is empty.
fn no_instance(rt: &impl Print) -> io::Result<()> {
    let pens = [0u8; 65536];
    walk(rt, "no instance", &pens, 1)
}

// Every handle in key order, and two steps behind the last; and the last position that there is.
fn two_instances(rt: &impl Print) -> io::Result<()> {
    let mut pens = [0u8; 65536];
    registered(&mut pens);
    walk(rt, "two instances", &pens, 4)?;
    last_position(rt, &pens)
}

// The same in a table of 32 places.
fn small_table(rt: &impl Print) -> io::Result<()> {
    let mut pens = [0u8; 16384];
    registered(&mut pens);
    walk(rt, "two of 32", &pens, 3)
}

// Refusal 1.
fn wrong_length(rt: &impl Print) -> io::Result<()> {
    let pens = [0u8; 512];
    walk(rt, "a table of one place", &pens, 2)
}

// Refusal 3.
fn wrong_form(rt: &impl Print) -> io::Result<()> {
    let mut pens = [0u8; 65536];
    pens[65535] = 1;
    walk(rt, "a byte behind the records", &pens, 1)
}

// Two instances are registered: the second has the lower key.
fn registered(pens: &mut [u8]) {
    let head = fresh(pens);
    let after = register(head, 9, pens);
    register(after, 5, pens);
}

// The head of the fresh state.
fn fresh(pens: &mut [u8]) -> Head {
    let mut writers = [0u8; 5120];
    let mut lost = [0u8; 4096];
    dcps::fresh(pens, &mut writers, &mut lost).head
}

// The sheet of a register (code 1) of the key.
fn sheet_of(key: u64) -> [u8; 256] {
    let mut sheet = [0u8; 256];
    octets::put_u64(&mut sheet, 8, key);
    sheet[81] = 1;
    sheet
}

// The instance of the key is registered, where there are no writers.
fn register(head: Head, key: u64, pens: &mut [u8]) -> Head {
    let mut writers = [0u8; 5120];
    let mut lost = [0u8; 4096];
    call(head, key, pens, &mut writers, &mut lost)
}

// The call, and the head after it.
fn call(head: Head, key: u64, pens: &mut [u8], writers: &mut [u8], lost: &mut [u8]) -> Head {
    let sheet = sheet_of(key);
    let mut out = [0u8; 4096];
    dcps::call(head, &sheet, pens, writers, lost, &mut out).head
}

// So many steps of a walker from the table's start.
fn walk(rt: &impl Print, name: &str, pens: &[u8], steps: u64) -> io::Result<()> {
    let mut position = 0;
    for _ in 0..steps {
        print!(rt; "{name}")?;
        position = step(rt, pens, position)?;
    }
    Ok(())
}

// One step: the position, and what is given there. Where the walker stands after it.
fn step(rt: &impl Print, pens: &[u8], position: usize) -> io::Result<usize> {
    print!(rt; " at {position}")?;
    let walked = instance_walker::step_at(pens, position);
    answer(rt, walked.found)?;
    Ok(walked.position)
}

// The last position that there is.
fn last_position(rt: &impl Print, pens: &[u8]) -> io::Result<()> {
    print!(rt; "two instances at 2^64-1")?;
    answer(rt, instance_walker::handle_at(pens, usize::MAX))
}

// What a walker gives.
fn answer(rt: &impl Print, found: FoundHandle) -> io::Result<()> {
    match found {
        FoundHandle::Refused(number) => println!(rt; ": refused {number}"),
        FoundHandle::Missing => println!(rt; ": none"),
        FoundHandle::Is(handle) => println!(rt; ": handle {}", handle.0),
    }
}
