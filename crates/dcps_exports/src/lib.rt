// What C callers link (include/dcps.h): each function of dcps_c under its own name, with its contract. A crate of Rattle is a
// library or a static library, so that dcps_c, which other crates rest on, exports nothing itself.
#![tactic(auto)]

ghost use Rattle.std.specs.Prelude.{not, [], ◌≡◌, eqb};
ghost use Rattle.boundary_reads.specs.ReadAnswers.{told_of, told};
ghost use Rattle.boundary_reads.specs.KeyHashes.{told_key_hash};
ghost use Rattle.boundary_reads.specs.WireAnswers.{fraction_answer, nanos_answer};
ghost use Rattle.key_hash.specs.KeyHash.{key_hash_of};
ghost use Rattle.wire_time.specs.WireTime.{wire_fraction_of, nanos_of};
ghost use Rattle.read_answers.specs.Cases.{decision_answer, time_answer, handle_answer};
ghost use Rattle.model.specs.Handles.{handle};
ghost use Rattle.model.specs.Reads.{filter_read, order_read, last_delivered_read, next_handle_read, walk_read, lookup_read, would_leave_read};
ghost use Rattle.model.specs.State.{places_in};
ghost use Rattle.instance_reads.specs.HolderPlaces.{holder_place};
ghost use Rattle.dcps_c.specs.Boundary.{crossed_of, boundary_call, boundary_fresh};
ghost use Rattle.dcps_c.specs.Reads.{guid_of, time_at, boundary_status, boundary_changes, told_list, boundary_left, place_answer};
ghost use Rattle.dcps_c.specs.Version.{version_number};

// ---- the version

// The version of the library, 0.3.0, as one number.
#[unsafe(no_mangle)]
pub extern "C" fn dcps_version() -> u32
    ensures { result ≡ version_number }
{
    dcps_c::dcps_version()
}

// ---- every call

// A call: the sheet says which; head and buffers are the state that it is made on.
#[unsafe(no_mangle)]
pub extern "C" fn dcps_call(
    head: &mut [u8],
    sheet: &[u8],
    pens: &mut [u8],
    writers: &mut [u8],
    lost: &mut [u8],
    out: &mut [u8],
    answer: &mut [u8],
) -> u32
    ensures { crossed_of result head.new pens.new writers.new lost.new out.new answer.new
        ≡ boundary_call head.old sheet.now pens.old writers.old lost.old out.old answer.old }
{
    dcps_c::dcps_call(head, sheet, pens, writers, lost, out, answer)
}

// ---- the fresh state

// Head and buffers become those of the fresh state.
#[unsafe(no_mangle)]
pub extern "C" fn dcps_fresh(
    head: &mut [u8],
    pens: &mut [u8],
    writers: &mut [u8],
    lost: &mut [u8],
) -> u32
    ensures { crossed_of result head.new pens.new writers.new lost.new [] []
        ≡ boundary_fresh head.old pens.old writers.old lost.old }
{
    dcps_c::dcps_fresh(head, pens, writers, lost)
}

// ---- reads of the head

// The liveliness status (DDS 1.4, 2.2.4.1) that the head holds, which it leaves as it is.
#[unsafe(no_mangle)]
pub extern "C" fn dcps_status(head: &[u8], answer: &mut [u8]) -> u32
    ensures { told_of result answer.new ≡ boundary_status head.now answer.old }
{
    dcps_c::dcps_status(head, answer)
}

// How many changes of class the head has counted.
#[unsafe(no_mangle)]
pub extern "C" fn dcps_changes(head: &[u8], answer: &mut [u8]) -> u32
    ensures { told_of result answer.new ≡ boundary_changes head.now answer.old }
{
    dcps_c::dcps_changes(head, answer)
}

// ---- reads of the instances

// Whether a sample is delivered under the time-based filter (DDS 1.4, 2.2.3.12).
#[unsafe(no_mangle)]
pub extern "C" fn dcps_should_deliver_under_time_based_filter(
    pens: &[u8],
    high: u64,
    low: u64,
    sec: i32,
    nanosec: u32,
    min_separation: u64,
    answer: &mut [u8],
) -> u32
    ensures { told_of result answer.new
        ≡ told (decision_answer (filter_read (places_in pens.now) pens.now (guid_of high low) (time_at sec nanosec) min_separation)) answer.old }
{
    dcps_c::dcps_should_deliver_under_time_based_filter(
        pens,
        high,
        low,
        sec,
        nanosec,
        min_separation,
        answer,
    )
}

// Whether a sample is delivered under the destination order (DDS 1.4, 2.2.3.17); any number but 0 is by source.
#[unsafe(no_mangle)]
pub extern "C" fn dcps_should_deliver_under_destination_order(
    pens: &[u8],
    high: u64,
    low: u64,
    sec: i32,
    nanosec: u32,
    by_source: u8,
    answer: &mut [u8],
) -> u32
    ensures { told_of result answer.new
        ≡ told (decision_answer (order_read (places_in pens.now) pens.now (guid_of high low) (time_at sec nanosec) (not (eqb by_source 0)))) answer.old }
{
    dcps_c::dcps_should_deliver_under_destination_order(
        pens, high, low, sec, nanosec, by_source, answer,
    )
}

// When a sample of the instance was delivered last.
#[unsafe(no_mangle)]
pub extern "C" fn dcps_last_delivered_ts(pens: &[u8], high: u64, low: u64, answer: &mut [u8]) -> u32
    ensures { told_of result answer.new ≡ told (time_answer (last_delivered_read (places_in pens.now) pens.now (guid_of high low))) answer.old }
{
    dcps_c::dcps_last_delivered_ts(pens, high, low, answer)
}

// The handle that follows another in the order of the keys; the first one behind nil.
#[unsafe(no_mangle)]
pub extern "C" fn dcps_next_handle_after(pens: &[u8], previous: u64, answer: &mut [u8]) -> u32
    ensures { told_of result answer.new ≡ told (handle_answer (next_handle_read (places_in pens.now) pens.now (handle previous))) answer.old }
{
    dcps_c::dcps_next_handle_after(pens, previous, answer)
}

// The handle of the instance at a position: a walker's step.
#[unsafe(no_mangle)]
pub extern "C" fn dcps_handle_at_position(pens: &[u8], position: usize, answer: &mut [u8]) -> u32
    ensures { told_of result answer.new ≡ told (handle_answer (walk_read (places_in pens.now) pens.now position)) answer.old }
{
    dcps_c::dcps_handle_at_position(pens, position, answer)
}

// Where the bytes from which the key was made are stored in pens; where they are not, the caller's own are in force.
#[unsafe(no_mangle)]
pub extern "C" fn dcps_holder_in_force(pens: &[u8], high: u64, low: u64, answer: &mut [u8]) -> u32
    ensures { told_of result answer.new ≡ told (place_answer (holder_place (places_in pens.now) pens.now (guid_of high low))) answer.old }
{
    dcps_c::dcps_holder_in_force(pens, high, low, answer)
}

// The first alive instance in key order that the writer writes.
#[unsafe(no_mangle)]
pub extern "C" fn dcps_writer_lookup(pens: &[u8], high: u64, low: u64, answer: &mut [u8]) -> u32
    ensures { told_of result answer.new ≡ told (handle_answer (lookup_read (places_in pens.now) pens.now (guid_of high low))) answer.old }
{
    dcps_c::dcps_writer_lookup(pens, high, low, answer)
}

// Whether the loss of the writers of a list would leave an instance without writers.
#[unsafe(no_mangle)]
pub extern "C" fn dcps_would_leave_writerless(
    pens: &[u8],
    gone: &[u8],
    view_states: u32,
    answer: &mut [u8],
) -> u32
    ensures { told_of result answer.new
        ≡ told (decision_answer (would_leave_read (places_in pens.now) pens.now gone.now view_states)) answer.old }
{
    dcps_c::dcps_would_leave_writerless(pens, gone, view_states, answer)
}

// The handles of the instances that it would leave so, to the front of Out.
#[unsafe(no_mangle)]
pub extern "C" fn dcps_left_writerless(
    pens: &[u8],
    gone: &[u8],
    view_states: u32,
    out: &mut [u8],
    answer: &mut [u8],
) -> u32
    ensures { told_list result out.new answer.new
        ≡ boundary_left pens.now gone.now view_states out.old answer.old }
{
    dcps_c::dcps_left_writerless(pens, gone, view_states, out, answer)
}

// ---- keys

// The key of an instance from its serialized key, whose type's largest size is stated (DDSI-RTPS 2.5, 9.6.4.8).
#[unsafe(no_mangle)]
pub extern "C" fn dcps_key_hash(serialized: &[u8], largest: u64, answer: &mut [u8]) -> u32
    ensures { told_of result answer.new ≡ told_key_hash (key_hash_of serialized.now largest) answer.old }
{
    dcps_c::dcps_key_hash(serialized, largest, answer)
}

// ---- wire time

// Nanoseconds as the fraction of a second that a stamp of RTPS carries, with the remainder of the division.
#[unsafe(no_mangle)]
pub extern "C" fn dcps_wire_fraction(nanosec: u32, answer: &mut [u8]) -> u32
    ensures { told_of result answer.new ≡ told (fraction_answer (wire_fraction_of nanosec)) answer.old }
{
    dcps_c::dcps_wire_fraction(nanosec, answer)
}

// The nanoseconds that a fraction and a remainder came from.
#[unsafe(no_mangle)]
pub extern "C" fn dcps_wire_nanos(fraction: u32, remainder: u32, answer: &mut [u8]) -> u32
    ensures { told_of result answer.new ≡ told (nanos_answer (nanos_of fraction remainder)) answer.old }
{
    dcps_c::dcps_wire_nanos(fraction, remainder, answer)
}
