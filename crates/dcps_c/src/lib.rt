// The C boundary: every entry of dcps on bytes alone, numbers most significant byte first (include/dcps.h). None has a
// `requires`: any bytes are answered, or refused with a number of documents 01 and 02 and nothing written but the answer.
#![tactic(auto)]

ghost use Rattle.std.specs.Prelude.{not, [], ◌≡◌, eqb, length};
ghost use Rattle.boundary.specs.Layouts.{answer_bytes};
ghost use Rattle.boundary_reads.specs.ReadAnswers.{told_of, told};
ghost use Rattle.boundary_reads.specs.KeyHashes.{told_key_hash};
ghost use Rattle.boundary_reads.specs.WireAnswers.{fraction_answer, nanos_answer};
ghost use Rattle.key_hash.specs.KeyHash.{key_hash_of};
ghost use Rattle.wire_time.specs.WireTime.{wire_fraction_of, nanos_of};
ghost use Rattle.read_answers.specs.Cases.{decision_answer, time_answer, handle_answer, status_answer};
ghost use Rattle.model.specs.Answers.{refused_with};
ghost use Rattle.model.specs.Handles.{handle};
ghost use Rattle.model.specs.Reads.{filter_read, order_read, last_delivered_read, next_handle_read, walk_read, lookup_read, would_leave_read};
ghost use Rattle.model.specs.State.{places_in};
ghost use Rattle.instance_reads.specs.HolderPlaces.{holder_place};
ghost use Rattle.dcps_c.specs.Boundary.{crossed_of, head_or, no_head, unanswered, called_head, boundary_call, boundary_fresh};
ghost use Rattle.dcps_c.specs.Reads.{guid_of, time_at, status_of, boundary_status, changes_of, boundary_changes, told_list, boundary_left, place_answer};
ghost use Rattle.dcps_c.specs.Version.{version_number};

use model::{Answer, Called, Guid, Head, InstanceHandle, StatusRead, Time};
use read_answers::ReadAnswer;

// ---- the version

// The version of the library, 0.3.0, as one number.
#[unsafe(no_mangle)]
pub extern "C" fn dcps_version() -> u32
    ensures { result ≡ version_number }
{
    768
}

// ---- the head and the answer

// A head that no buffers make well formed, with a figure.
fn no_head(places: u16) -> Head
    ensures { result ≡ no_head places }
{
    Head {
        instance_count: 0,
        next_handle: InstanceHandle(0),
        writer_count: 0,
        lost_count: 0,
        alive: 0,
        not_alive: 0,
        alive_change: 0,
        not_alive_change: 0,
        last_writer: None,
        changes: 0,
        places,
    }
}

// The head of its bytes; where they are no head's, one that is refused as 3, in its turn, and has their figure.
fn lent_head(head: &[u8; 64]) -> Head
    ensures { result ≡ head_or head.now }
{
    if boundary::head_laid(head) {
        boundary::read_head(head)
    } else {
        no_head(octets::get_u16(head, 30))
    }
}

// A refusal: the number, and zeros.
fn refuse(answer: &mut [u8; 72], number: u8) -> u32
    ensures number { result ≡ number }
    ensures bytes { answer.new ≡ answer_bytes (refused_with number) }
{
    boundary::write_answer(answer, answers::refused_with(number));
    u32::from(number)
}

// On number 0 the new head.
fn write_new_head(head: &mut [u8; 64], r: Called)
    ensures { head.new ≡ called_head r head.old }
{
    if r.answer.number == 0 {
        boundary::write_head(head, r.head);
    }
}

// The answer, and on number 0 the new head.
fn settle(head: &mut [u8; 64], answer: &mut [u8; 72], r: Called) -> u32
    ensures number { result ≡ r.answer.number }
    ensures head { head.new ≡ called_head r head.old }
    ensures answer { answer.new ≡ answer_bytes r.answer }
{
    boundary::write_answer(answer, r.answer);
    write_new_head(head, r);
    u32::from(r.answer.number)
}

// The number where an answer has another length, so that nothing is written: 3 by the head's figure, else 1.
fn unanswered(head: &[u8]) -> u32
    ensures { result ≡ unanswered head.now }
{
    match head.as_array::<64>() {
        Some(head) if !instance_places::figure_ok(octets::get_u16(head, 30)) => 3,
        _ => 1,
    }
}

// ---- every call

// A call: the sheet says which; head and buffers are the state that it is made on.
#[unsafe(no_mangle)]
pub extern "C" fn dcps_call(
    head: &mut [u8],
    sheet: &[u8],
    pens: &mut [u8],
    writers: &mut [u8],
    lost: &mut [u8],
    out: &mut [u8],
    answer: &mut [u8],
) -> u32
    ensures { crossed_of result head.new pens.new writers.new lost.new out.new answer.new
        ≡ boundary_call head.old sheet.now pens.old writers.old lost.old out.old answer.old }
{
    let Some(answer) = answer.as_mut_array::<72>() else {
        return unanswered(head);
    };
    let Some(head) = head.as_mut_array::<64>() else {
        return refuse(answer, 1);
    };
    let r = dcps::call(lent_head(head), sheet, pens, writers, lost, out);
    settle(head, answer, r)
}

// ---- the fresh state

// Head and buffers become those of the fresh state.
#[unsafe(no_mangle)]
pub extern "C" fn dcps_fresh(
    head: &mut [u8],
    pens: &mut [u8],
    writers: &mut [u8],
    lost: &mut [u8],
) -> u32
    ensures { crossed_of result head.new pens.new writers.new lost.new [] []
        ≡ boundary_fresh head.old pens.old writers.old lost.old }
{
    let Some(head) = head.as_mut_array::<64>() else {
        return 1;
    };
    let r = dcps::fresh(pens, writers, lost);
    write_new_head(head, r);
    u32::from(r.answer.number)
}

// ---- reads of the head

// The answer that holds a status.
fn status_answer(s: StatusRead) -> Answer
    ensures { result ≡ status_answer s }
{
    match s {
        StatusRead::Refused(n) => answers::refused_with(n),
        StatusRead::Is(status) => answers::reporting(status),
    }
}

// The status of a head's bytes.
fn status_of(head: &[u8]) -> Answer
    ensures { result ≡ status_of head.now }
{
    match head.as_array::<64>() {
        Some(head) => status_answer(dcps::status(lent_head(head))),
        None => answers::refused_with(1),
    }
}

// The liveliness status (DDS 1.4, 2.2.4.1) that the head holds, which it leaves as it is.
#[unsafe(no_mangle)]
pub extern "C" fn dcps_status(head: &[u8], answer: &mut [u8]) -> u32
    ensures { told_of result answer.new ≡ boundary_status head.now answer.old }
{
    if answer.len() != 72 {
        return unanswered(head);
    }
    let a = status_of(head);
    boundary::write_answer(answer, a);
    u32::from(a.number)
}

// The changes of a head's bytes.
fn changes_of(head: &[u8]) -> ReadAnswer
    ensures { result ≡ changes_of head.now }
{
    match head.as_array::<64>() {
        Some(head) => boundary_reads::changes_answer(dcps::changes(lent_head(head))),
        None => boundary_reads::refused_answer(1),
    }
}

// How many changes of class the head has counted.
#[unsafe(no_mangle)]
pub extern "C" fn dcps_changes(head: &[u8], answer: &mut [u8]) -> u32
    ensures { told_of result answer.new ≡ boundary_changes head.now answer.old }
{
    if answer.len() != 24 {
        return unanswered(head);
    }
    let a = changes_of(head);
    boundary_reads::tell(answer, a)
}

// ---- reads of the instances

// Whether a sample is delivered under the time-based filter (DDS 1.4, 2.2.3.12).
#[unsafe(no_mangle)]
pub extern "C" fn dcps_should_deliver_under_time_based_filter(
    pens: &[u8],
    high: u64,
    low: u64,
    sec: i32,
    nanosec: u32,
    min_separation: u64,
    answer: &mut [u8],
) -> u32
    ensures { told_of result answer.new
        ≡ told (decision_answer (filter_read (places_in pens.now) pens.now (guid_of high low) (time_at sec nanosec) min_separation)) answer.old }
{
    let key = Guid { hi: high, lo: low };
    let time = Time { sec, nanosec };
    let d = dcps::should_deliver_under_time_based_filter(pens, key, time, min_separation);
    boundary_reads::tell(answer, boundary_reads::decision_answer(d))
}

// Whether a sample is delivered under the destination order (DDS 1.4, 2.2.3.17); any number but 0 is by source.
#[unsafe(no_mangle)]
pub extern "C" fn dcps_should_deliver_under_destination_order(
    pens: &[u8],
    high: u64,
    low: u64,
    sec: i32,
    nanosec: u32,
    by_source: u8,
    answer: &mut [u8],
) -> u32
    ensures { told_of result answer.new
        ≡ told (decision_answer (order_read (places_in pens.now) pens.now (guid_of high low) (time_at sec nanosec) (not (eqb by_source 0)))) answer.old }
{
    let key = Guid { hi: high, lo: low };
    let time = Time { sec, nanosec };
    let d = dcps::should_deliver_under_destination_order(pens, key, time, by_source != 0);
    boundary_reads::tell(answer, boundary_reads::decision_answer(d))
}

// When a sample of the instance was delivered last.
#[unsafe(no_mangle)]
pub extern "C" fn dcps_last_delivered_ts(pens: &[u8], high: u64, low: u64, answer: &mut [u8]) -> u32
    ensures { told_of result answer.new ≡ told (time_answer (last_delivered_read (places_in pens.now) pens.now (guid_of high low))) answer.old }
{
    let key = Guid { hi: high, lo: low };
    let f = dcps::last_delivered_ts(pens, key);
    boundary_reads::tell(answer, boundary_reads::time_answer(f))
}

// The handle that follows another in the order of the keys; the first one behind nil.
#[unsafe(no_mangle)]
pub extern "C" fn dcps_next_handle_after(pens: &[u8], previous: u64, answer: &mut [u8]) -> u32
    ensures { told_of result answer.new ≡ told (handle_answer (next_handle_read (places_in pens.now) pens.now (handle previous))) answer.old }
{
    let f = dcps::next_handle_after(pens, InstanceHandle(previous));
    boundary_reads::tell(answer, boundary_reads::handle_answer(f))
}

// The handle of the instance at a position: a walker's step.
#[unsafe(no_mangle)]
pub extern "C" fn dcps_handle_at_position(pens: &[u8], position: usize, answer: &mut [u8]) -> u32
    ensures { told_of result answer.new ≡ told (handle_answer (walk_read (places_in pens.now) pens.now position)) answer.old }
{
    let f = dcps::handle_at_position(pens, position);
    boundary_reads::tell(answer, boundary_reads::handle_answer(f))
}

// Where the bytes from which the key was made are stored in pens; where they are not, the caller's own are in force.
#[unsafe(no_mangle)]
pub extern "C" fn dcps_holder_in_force(pens: &[u8], high: u64, low: u64, answer: &mut [u8]) -> u32
    ensures { told_of result answer.new ≡ told (place_answer (holder_place (places_in pens.now) pens.now (guid_of high low))) answer.old }
{
    let key = Guid { hi: high, lo: low };
    let p = dcps::holder_place(pens, key);
    let a = boundary_reads::holder_answer(p.stored, p.offset as u64, p.len);
    boundary_reads::tell(answer, a)
}

// The first alive instance in key order that the writer writes.
#[unsafe(no_mangle)]
pub extern "C" fn dcps_writer_lookup(pens: &[u8], high: u64, low: u64, answer: &mut [u8]) -> u32
    ensures { told_of result answer.new ≡ told (handle_answer (lookup_read (places_in pens.now) pens.now (guid_of high low))) answer.old }
{
    let guid = Guid { hi: high, lo: low };
    let f = dcps::writer_lookup(pens, guid);
    boundary_reads::tell(answer, boundary_reads::handle_answer(f))
}

// Whether the loss of the writers of a list would leave an instance without writers.
#[unsafe(no_mangle)]
pub extern "C" fn dcps_would_leave_writerless(
    pens: &[u8],
    gone: &[u8],
    view_states: u32,
    answer: &mut [u8],
) -> u32
    ensures { told_of result answer.new
        ≡ told (decision_answer (would_leave_read (places_in pens.now) pens.now gone.now view_states)) answer.old }
{
    let d = dcps::would_leave_writerless(pens, gone, view_states);
    boundary_reads::tell(answer, boundary_reads::decision_answer(d))
}

// The handles of the instances that it would leave so, to the front of Out.
#[unsafe(no_mangle)]
pub extern "C" fn dcps_left_writerless(
    pens: &[u8],
    gone: &[u8],
    view_states: u32,
    out: &mut [u8],
    answer: &mut [u8],
) -> u32
    ensures { told_list result out.new answer.new
        ≡ boundary_left pens.now gone.now view_states out.old answer.old }
{
    if answer.len() != 24 {
        return 1;
    }
    let l = dcps::left_writerless(pens, gone, view_states, out);
    boundary_reads::tell(answer, boundary_reads::listing_answer(l))
}

// ---- keys

// The key of an instance from its serialized key, whose type's largest size is stated (DDSI-RTPS 2.5, 9.6.4.8).
#[unsafe(no_mangle)]
pub extern "C" fn dcps_key_hash(serialized: &[u8], largest: u64, answer: &mut [u8]) -> u32
    ensures { told_of result answer.new ≡ told_key_hash (key_hash_of serialized.now largest) answer.old }
{
    let k = dcps::key_hash(serialized, largest);
    boundary_reads::tell_key_hash(answer, k)
}

// ---- wire time

// Nanoseconds as the fraction of a second that a stamp of RTPS carries, with the remainder of the division.
#[unsafe(no_mangle)]
pub extern "C" fn dcps_wire_fraction(nanosec: u32, answer: &mut [u8]) -> u32
    ensures { told_of result answer.new ≡ told (fraction_answer (wire_fraction_of nanosec)) answer.old }
{
    let w = dcps::wire_fraction(nanosec);
    boundary_reads::tell(answer, boundary_reads::fraction_answer(w))
}

// The nanoseconds that a fraction and a remainder came from.
#[unsafe(no_mangle)]
pub extern "C" fn dcps_wire_nanos(fraction: u32, remainder: u32, answer: &mut [u8]) -> u32
    ensures { told_of result answer.new ≡ told (nanos_answer (nanos_of fraction remainder)) answer.old }
{
    let n = dcps::nanos_of(fraction, remainder);
    boundary_reads::tell(answer, boundary_reads::nanos_answer(n))
}
