// The answers of the reads in bytes, as they cross the C boundary: 24 bytes, whose layout stands in specs/ReadAnswers, and in
// specs/KeyHashes for a KeyHash; specs/WireAnswers says what wire time puts into it.
#![tactic(auto)]

ghost use Rattle.std.specs.Prelude.{◌≡◌, length};
ghost use Rattle.octets.specs.Fields.{puts};
ghost use Rattle.read_answers.specs.Cases.{read_of, refused_answer, decision_answer, handle_answer, time_answer, listing_answer, holder_answer, changes_answer};
ghost use Rattle.boundary_reads.specs.ReadAnswers.{bit_widths, bit_values, value_widths, value_values, told_of, told};
ghost use Rattle.boundary_reads.specs.KeyHashes.{key_hash_bytes, told_key_hash};
ghost use Rattle.boundary_reads.specs.WireAnswers.{fraction_answer, nanos_answer};

use key_hash::KeyHashed;
use model::{ChangesRead, Decision, FoundHandle, FoundTime, Listing};
use read_answers::ReadAnswer;
use wire_time::WireFraction;

// ---- the answers

// An answer with these values, and no time.
pub fn read_of(number: u8, said: u8, present: bool, size: u32, value: u64) -> ReadAnswer
    ensures { result ≡ read_of number said present size value }
{
    ReadAnswer {
        number,
        said,
        present,
        stored: false,
        size,
        value,
        sec: 0,
        nanosec: 0,
    }
}

// A refusal: its number alone. Number 0: nothing was found.
pub fn refused_answer(n: u8) -> ReadAnswer
    ensures { result ≡ refused_answer n }
{
    read_of(n, 0, false, 0, 0)
}

// A yes or a no.
pub fn decision_answer(d: Decision) -> ReadAnswer
    ensures { result ≡ decision_answer d }
{
    match d {
        Decision::Refused(n) => refused_answer(n),
        Decision::Is(yes) => read_of(0, boundary::bit_of(yes), false, 0, 0),
    }
}

// A handle, where one was found.
pub fn handle_answer(f: FoundHandle) -> ReadAnswer
    ensures { result ≡ handle_answer f }
{
    match f {
        FoundHandle::Refused(n) => refused_answer(n),
        FoundHandle::Missing => refused_answer(0),
        FoundHandle::Is(h) => read_of(0, 0, true, 0, h.0),
    }
}

// A time, where one was found.
pub fn time_answer(f: FoundTime) -> ReadAnswer
    ensures { result ≡ time_answer f }
{
    match f {
        FoundTime::Refused(n) => refused_answer(n),
        FoundTime::Missing => refused_answer(0),
        FoundTime::Is(t) => ReadAnswer {
            number: 0,
            said: 0,
            present: true,
            stored: false,
            size: 0,
            value: 0,
            sec: numbers::bits_of(t.sec),
            nanosec: t.nanosec,
        },
    }
}

// How many entries were listed.
pub fn listing_answer(l: Listing) -> ReadAnswer
    ensures { result ≡ listing_answer l }
{
    match l {
        Listing::Refused(n) => refused_answer(n),
        Listing::Listed(n) => read_of(0, 0, false, n, 0),
    }
}

// Where a stored holder stands: its first byte and its length.
pub fn holder_answer(stored: bool, offset: u64, len: u16) -> ReadAnswer
    ensures { result ≡ holder_answer stored offset len }
{
    ReadAnswer {
        stored,
        ..read_of(0, 0, false, u32::from(len), offset)
    }
}

// How many changes were counted.
pub fn changes_answer(c: ChangesRead) -> ReadAnswer
    ensures { result ≡ changes_answer c }
{
    match c {
        ChangesRead::Refused(n) => refused_answer(n),
        ChangesRead::Is(n) => read_of(0, 0, false, 0, n),
    }
}

// A fraction and a remainder, or the refusal.
pub fn fraction_answer(w: WireFraction) -> ReadAnswer
    ensures { result ≡ fraction_answer w }
{
    read_of(w.number, 0, false, w.fraction, w.remainder as u64)
}

// The nanoseconds of a fraction and a remainder.
pub fn nanos_answer(n: u32) -> ReadAnswer
    ensures { result ≡ nanos_answer n }
{
    read_of(0, 0, false, n, 0)
}

// ---- the bytes

// Number, yes, present and stored, from 0.
fn write_bits(b: &mut [u8; 24], a: ReadAnswer)
    ensures { b.new ≡ puts bit_widths (bit_values a) b.old 0 0 }
{
    octets::put_u8(b, 0, a.number);
    octets::put_u8(b, 1, a.said);
    octets::put_u8(b, 2, u8::from(a.present));
    octets::put_u8(b, 3, u8::from(a.stored));
}

// The numbers, from 4.
fn write_values(b: &mut [u8; 24], a: ReadAnswer)
    ensures { b.new ≡ puts value_widths (value_values a) b.old 0 4 }
{
    octets::put_u32(b, 4, a.size);
    octets::put_u64(b, 8, a.value);
    octets::put_u32(b, 16, a.sec);
    octets::put_u32(b, 20, a.nanosec);
}

// The answer where it has its length; else nothing is written, and the number is 1.
pub fn tell(answer: &mut [u8], a: ReadAnswer) -> u32
    ensures { told_of result answer.new ≡ told a answer.old }
{
    let Some(bytes) = answer.as_mut_array::<24>() else {
        return 1;
    };
    write_bits(bytes, a);
    write_values(bytes, a);
    u32::from(a.number)
}

// The number, zeros, and the KeyHash.
fn write_key_hash(answer: &mut [u8], k: KeyHashed)
    requires { length answer.old ≡ 24 }
    ensures { answer.new ≡ key_hash_bytes k }
{
    let hash = k.hash;
    octets::put_u8(answer, 0, k.number);
    octets::store(answer, 1, 7, 0);
    octets::copy(&hash, 0, answer, 8, 16);
}

// A KeyHash, where the answer has its length; else nothing is written, and the number is 1.
pub fn tell_key_hash(answer: &mut [u8], k: KeyHashed) -> u32
    ensures { told_of result answer.new ≡ told_key_hash k answer.old }
{
    let Some(bytes) = answer.as_mut_array::<24>() else {
        return 1;
    };
    write_key_hash(bytes, k);
    u32::from(k.number)
}
