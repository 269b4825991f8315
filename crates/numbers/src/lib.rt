// Numbers beyond the language's own operators: a generation more, a product modulo 2^64, 32 bits read with and without a
// sign, and the signed differences of the liveliness status.
#![tactic(auto)]

ghost use Rattle.std.specs.Prelude.{◌≡◌, ◌+◌, ◌*◌, ◌%◌, ◌^◌, ◌≤◌, min, pos, ◌+ℤ◌, ◌-ℤ◌, FitsSigned};
ghost use Rattle.std.specs.Int.{w32, w64};
ghost use Rattle.std.proofs.Common.{of_z, to_z};
ghost use Rattle.model.specs.Times.{raised};
ghost use Rattle.model.specs.WellFormed.{within};

// One generation more, stopping at 2^31 - 1.
pub fn generation_after(g: u32) -> u32
    requires { g ≤ 2147483647 }
    ensures { result ≡ min (g + 1) 2147483647 }
{
    (g + 1).min(0x7FFF_FFFF)
}

// a * b, modulo 2^64.
pub fn wrapping_mul_u64(a: u64, b: u64) -> u64
    ensures { result ≡ a * b % 2 ^ 64 }
{
    a.wrapping_mul(b)
}

// The bits of a signed number, as the number plus 2^31: these are ordered as the signed numbers are.
pub fn raise(bits: u32) -> u32
    ensures { result ≡ raised bits }
{
    bits.wrapping_add(0x8000_0000)
}

// The bits of a signed number, in two's complement.
pub fn bits_of(s: i32) -> u32
    ensures { result ≡ of_z w32 s }
{
    s.cast_unsigned()
}

// The signed number of the bits.
pub fn of_bits(b: u32) -> i32
    ensures { result ≡ to_z w32 b }
{
    b.cast_signed()
}

// What was acknowledged of a count: the count less its change.
pub fn acknowledged(count: u32, change: i32) -> i64
    ensures { result ≡ pos count -ℤ change }
{
    i64::from(count) - i64::from(change)
}

// x lies within -2^30 and 2^30.
#[tactic(auto, unfolding(model::specs::WellFormed::within))]
pub fn within_bound(x: i64) -> bool
    ensures { result ≡ within x }
{
    (-0x4000_0000..=0x4000_0000).contains(&x)
}

// The change of a count: the count less what was acknowledged of it.
pub fn change_of(count: u32, acknowledged: i64) -> i32
    requires { FitsSigned w32 (pos count -ℤ acknowledged) }
    ensures { result ≡ pos count -ℤ acknowledged }
{
    (i64::from(count) - acknowledged) as i32
}

// a + b, where it fits.
pub fn add_i64(a: i64, b: i32) -> i64
    requires { FitsSigned w64 (a +ℤ b) }
    ensures { result ≡ a +ℤ b }
{
    a + i64::from(b)
}
