// Wire time (document 02, ticket 4): nanoseconds below 10^9 as the 32-bit fraction of a second that the stamps of RTPS carry,
// with the remainder of the division, so that nothing is dropped.
#![tactic(auto)]

mod table;

ghost use Rattle.std.specs.Prelude.{◌≡◌, ◌<◌, ◌^◌};
ghost use Rattle.wire_time.specs.WireTime.{fraction_of, remainder_of, entry_of, table, nanos_of, wire_fraction_of};

use table::FRACTIONS;

#[derive(Clone, Copy)]
pub struct WireFraction {
    pub number: u8,
    pub fraction: u32,
    pub remainder: u32,
}

// The printed table, by the rule of its entries.
fn fractions() -> [u32; 1000]
    ensures { result ≡ table }
{
    FRACTIONS
}

// The fraction of m milliseconds, as the table has it.
fn entry(m: u32) -> u32
    requires { m < 1000 }
    ensures { result ≡ entry_of m }
{
    let entries = fractions();
    entries[m as usize]
}

// Whole milliseconds have theirs from the table.
fn fraction(n: u32) -> u32
    requires { n < 10 ^ 9 }
    ensures { result ≡ fraction_of n }
{
    if n % 1_000_000 == 0 {
        return entry(n / 1_000_000);
    }
    (n as u64 * 4_294_967_296 / 1_000_000_000) as u32
}

// What the division by 10^9 leaves.
fn remainder(n: u32) -> u32
    ensures { result ≡ remainder_of n }
{
    (n as u64 * 4_294_967_296 % 1_000_000_000) as u32
}

// Nanoseconds to the fraction and the remainder; refused as 4 from 10^9 on.
pub fn wire_fraction(nanosec: u32) -> WireFraction
    ensures { result ≡ wire_fraction_of nanosec }
{
    if 1_000_000_000 <= nanosec {
        return WireFraction {
            number: 4,
            fraction: 0,
            remainder: 0,
        };
    }
    WireFraction {
        number: 0,
        fraction: fraction(nanosec),
        remainder: remainder(nanosec),
    }
}

// The nanoseconds that a fraction and a remainder came from; of any other two, rounded down.
pub fn nanos_of(fraction: u32, remainder: u32) -> u32
    ensures { result ≡ nanos_of fraction remainder }
{
    ((fraction as u64 * 1_000_000_000 + remainder as u64) / 4_294_967_296) as u32
}
