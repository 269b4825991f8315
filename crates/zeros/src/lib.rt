// Zeros in a slice, looked at by words: behind what a record's part holds 32 bytes a turn, behind a table's records 64.
// Each turn ends the scan where it finds another byte.
#![tactic(auto)]

ghost use Rattle.std.specs.Prelude.{◌≡◌, ◌+◌, ◌-◌, ◌%◌, ◌≤◌, ◌<◌, length, take, drop};
ghost use Rattle.octets.specs.Zeros.{all_zero};

// Whether the N bytes from at are zero: a few words, with no early exit.
fn zero_block<const N: usize>(s: &[u8], at: usize) -> bool
    requires { (at + N ≤ length s.now) × (N % 8 ≡ 0) }
    ensures { result ≡ all_zero (take N (drop at s.now)) }
{
    let mut any = 0;
    for i in 0..N / 8 {
        any |= octets::get_u64(s, at + i * 8);
    }
    any == 0
}

// Whether each byte from `from` up to, not including, `end` is 0, N bytes a turn. The last N are looked at first, and
// may overlap with those of the last turn, so that no turn has fewer.
fn zero_by<const N: usize>(s: &[u8], from: usize, end: usize) -> bool
    requires { (from ≤ end) × (end ≤ length s.now) × (0 < N) × (N % 8 ≡ 0) }
    ensures { result ≡ all_zero (take (end - from) (drop from s.now)) }
{
    if end - from < N {
        return octets::zero_between(s, from, end);
    }
    let last = end - N;
    if !zero_block::<N>(s, last) {
        return false;
    }
    let (blocks, _) = s[from..end].as_chunks::<N>();
    for block in blocks {
        if !zero_block::<N>(block, 0) {
            return false;
        }
    }
    true
}

// Whether each byte from `from` up to, not including, `end` is 0.
pub fn zero_tail(s: &[u8], from: usize, end: usize) -> bool
    requires { (from ≤ end) × (end ≤ length s.now) }
    ensures { result ≡ all_zero (take (end - from) (drop from s.now)) }
{
    zero_by::<32>(s, from, end)
}

// Whether each byte from `from` on is 0. A turn of 64 bytes takes the same time wherever the linker puts it.
pub fn zero_from(s: &[u8], from: usize) -> bool
    requires { from ≤ length s.now }
    ensures { result ≡ all_zero (drop from s.now) }
{
    zero_by::<64>(s, from, s.len())
}
