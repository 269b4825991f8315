// The head and the answer in bytes, as a recorded list holds them and as they cross the C boundary: 64 and 72 bytes, whose
// layout stands in specs/Layouts.
#![tactic(auto)]

ghost use Rattle.std.specs.Prelude.{◌≡◌, length, ◌+◌, ◌≤◌};
ghost use Rattle.std.specs.Int.{w32};
ghost use Rattle.std.proofs.Common.{to_z};
ghost use Rattle.octets.specs.Fields.{puts};
ghost use Rattle.octets.specs.Octets.{be};
ghost use Rattle.model.specs.Guids.{guid_at};
ghost use Rattle.model.specs.InstanceRecord.{bit};
ghost use Rattle.boundary.specs.Layouts.{last_present, last_guid, last_writer, head_bytes, head_in, head_laid, answer_bytes};
ghost use Rattle.boundary.specs.Parts.{count_widths, count_values, change_widths, change_values, last_widths, last_values, bit_widths, bit_values, kind_widths, kind_values, list_widths, list_values, status_widths, status_values, due_widths, due_values};

use model::{Answer, Guid, Head, InstanceHandle, LivelinessChangedStatus};

// ---- the head

// Whether there is a last writer, as a number.
fn last_present(last: Option<Guid>) -> u16
    ensures { result ≡ last_present last }
{
    u16::from(last.is_some())
}

// The last writer's GUID, or zeros.
fn last_guid(last: Option<Guid>) -> Guid
    ensures { result ≡ last_guid last }
{
    last.unwrap_or(Guid { hi: 0, lo: 0 })
}

// The counts of a head, from 0.
fn write_head_counts(b: &mut [u8; 64], h: Head)
    ensures { b.new ≡ puts count_widths (count_values h) b.old 0 0 }
{
    octets::put_u32(b, 0, h.instance_count);
    octets::put_u32(b, 4, h.writer_count);
    octets::put_u32(b, 8, h.lost_count);
    octets::put_u32(b, 12, h.alive);
    octets::put_u32(b, 16, h.not_alive);
}

// The changes of its counts, the last writer's presence and the number of instance places, from 20.
fn write_head_changes(b: &mut [u8; 64], h: Head)
    ensures { b.new ≡ puts change_widths (change_values h) b.old 0 20 }
{
    let last = h.last_writer;
    octets::put_u32(b, 20, h.alive_change.cast_unsigned());
    octets::put_u32(b, 24, h.not_alive_change.cast_unsigned());
    octets::put_u16(b, 28, last_present(last));
    octets::put_u16(b, 30, h.places);
}

// The next handle, the changes and the last writer's GUID, from 32.
fn write_head_last(b: &mut [u8; 64], h: Head)
    ensures { b.new ≡ puts last_widths (last_values h) b.old 0 32 }
{
    let last = h.last_writer;
    let g = last_guid(last);
    octets::put_u64(b, 32, h.next_handle.0);
    octets::put_u64(b, 40, h.changes);
    octets::put_u64(b, 48, g.hi);
    octets::put_u64(b, 56, g.lo);
}

// The bytes become those of a head.
pub fn write_head(b: &mut [u8], h: Head)
    requires { length b.old ≡ 64 }
    ensures { b.new ≡ head_bytes h }
{
    let Some(b) = b.as_mut_array::<64>() else {
        unreachable!();
    };
    write_head_counts(b, h);
    write_head_changes(b, h);
    write_head_last(b, h);
}

// The signed number of the 4 bytes from at.
fn signed_at(b: &[u8], at: usize) -> i32
    requires { at + 4 ≤ length b.now }
    ensures { result ≡ to_z w32 (be 4 b.now at) }
{
    octets::get_u32(b, at).cast_signed()
}

// The last writer of a head's bytes.
fn read_last(b: &[u8]) -> Option<Guid>
    requires { length b.now ≡ 64 }
    ensures { result ≡ last_writer (be 2 b.now 28) (guid_at b.now 48) }
{
    let present = octets::get_u16(b, 28) != 0;
    present.then_some(guid::guid_at(b, 48))
}

// The head of its bytes.
#[tactic(auto, unfolding(crate::specs::Layouts::head_in))]
pub fn read_head(b: &[u8]) -> Head
    requires { length b.now ≡ 64 }
    ensures { result ≡ head_in b.now }
{
    let last = read_last(b);
    let next = InstanceHandle(octets::get_u64(b, 32));
    Head {
        instance_count: octets::get_u32(b, 0),
        next_handle: next,
        writer_count: octets::get_u32(b, 4),
        lost_count: octets::get_u32(b, 8),
        alive: octets::get_u32(b, 12),
        not_alive: octets::get_u32(b, 16),
        alive_change: signed_at(b, 20),
        not_alive_change: signed_at(b, 24),
        last_writer: last,
        changes: octets::get_u64(b, 40),
        places: octets::get_u16(b, 30),
    }
}

// Whether bytes are those of a head.
pub fn head_laid(b: &[u8]) -> bool
    requires { length b.now ≡ 64 }
    ensures { result ≡ head_laid b.now }
{
    match octets::get_u16(b, 28) {
        0 => octets::get_u64(b, 48) == 0 && octets::get_u64(b, 56) == 0,
        present => present == 1,
    }
}

// ---- the answer

// A yes as 1.
pub fn bit_of(b: bool) -> u8
    ensures { result ≡ bit b }
{
    u8::from(b)
}

// Number, outcome, yes and present, from 0.
fn write_bits(b: &mut [u8; 72], a: Answer)
    ensures { b.new ≡ puts bit_widths (bit_values a) b.old 0 0 }
{
    octets::put_u8(b, 0, a.number);
    octets::put_u8(b, 1, a.outcome);
    octets::put_u8(b, 2, u8::from(a.yes));
    octets::put_u8(b, 3, u8::from(a.present));
}

// View-new, kind, whether a lease is due, the spare and the handle, from 4.
fn write_kind(b: &mut [u8; 72], a: Answer)
    ensures { b.new ≡ puts kind_widths (kind_values a) b.old 0 4 }
{
    octets::put_u8(b, 4, u8::from(a.info.view_new));
    octets::put_u8(b, 5, a.info.kind as u8);
    octets::put_u8(b, 6, u8::from(a.next_due.present));
    octets::put_u8(b, 7, 0);
    octets::put_u64(b, 8, a.handle.0);
}

// The counts of an instance and of a list, from 16.
fn write_counts(b: &mut [u8; 72], a: Answer)
    ensures { b.new ≡ puts list_widths (list_values a) b.old 0 16 }
{
    octets::put_u32(b, 16, a.samples);
    octets::put_u32(b, 20, a.info.disposed_generations);
    octets::put_u32(b, 24, a.info.no_writers_generations);
    octets::put_u32(b, 28, a.count);
    octets::put_u32(b, 32, a.listed);
}

// The status but for its handle, and the spare, from 36.
fn write_status(b: &mut [u8; 72], status: LivelinessChangedStatus)
    ensures { b.new ≡ puts status_widths (status_values status) b.old 0 36 }
{
    octets::put_u32(b, 36, status.alive_count);
    octets::put_u32(b, 40, status.not_alive_count);
    octets::put_u32(b, 44, status.alive_count_change.cast_unsigned());
    octets::put_u32(b, 48, status.not_alive_count_change.cast_unsigned());
    octets::put_u32(b, 52, 0);
}

// When a lease is due, and the last publication handle, from 56.
fn write_due(b: &mut [u8; 72], a: Answer)
    ensures { b.new ≡ puts due_widths (due_values a) b.old 0 56 }
{
    octets::put_u64(b, 56, a.next_due.at);
    octets::put_u64(b, 64, a.status.last_publication_handle.0);
}

// The bytes become those of an answer.
pub fn write_answer(b: &mut [u8], a: Answer)
    requires { length b.old ≡ 72 }
    ensures { b.new ≡ answer_bytes a }
{
    let Some(b) = b.as_mut_array::<72>() else {
        unreachable!();
    };
    write_bits(b, a);
    write_kind(b, a);
    write_counts(b, a);
    write_status(b, a.status);
    write_due(b, a);
}
