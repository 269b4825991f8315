// The MD5 message digest of RFC 1321, of a message of any length. It is here because the KeyHash of DDSI-RTPS makes long keys
// short by it; it keeps no forger out.
#![tactic(auto)]

ghost use Rattle.std.specs.Prelude.{◌≡◌, ◌+◌, ◌*◌, ◌/◌, ◌<◌, ◌≤◌, length};
ghost use Rattle.md5_digest.specs.Md5.{word, bit_length, initial, mixed, words, operation, steps, added, block, blocks, digest, md5_of};
ghost use Rattle.md5_digest.specs.Tail.{tail_of};
ghost use Rattle.md5_digest.specs.declared.Round.TheVariants.{First, Second, Third, Fourth};

// The four-word buffer (A, B, C, D).
#[derive(Clone, Copy)]
pub struct Registers {
    pub a: u32,
    pub b: u32,
    pub c: u32,
    pub d: u32,
}

#[derive(Clone, Copy)]
pub enum Round {
    First,
    Second,
    Third,
    Fourth,
}

// ---- section 2: words of 32 bits

// The word from index at.
#[tactic(auto, unfolding(crate::specs::Md5::word))]
fn word(bytes: &[u8], at: usize) -> u32
    requires { at + 4 ≤ length bytes.now }
    ensures { result ≡ word bytes.now at }
{
    u32::from_le_bytes([bytes[at], bytes[at + 1], bytes[at + 2], bytes[at + 3]])
}

// ---- sections 3.3 and 3.4: the buffer, and the blocks

// The buffer at the start.
fn initial() -> Registers
    ensures { result ≡ initial }
{
    Registers {
        a: 0x6745_2301,
        b: 0xefcd_ab89,
        c: 0x98ba_dcfe,
        d: 0x1032_5476,
    }
}

// F, G, H and I.
fn mixed(round: Round, x: u32, y: u32, z: u32) -> u32
    ensures { result ≡ mixed round x y z }
{
    match round {
        Round::First => (x & y) | (!x & z),
        Round::Second => (x & z) | (y & !z),
        Round::Third => x ^ y ^ z,
        Round::Fourth => y ^ (x | !z),
    }
}

// The operation [abcd k s i], t being T[i]; the letters are then moved on by one.
fn operation(round: Round, x: &[u32; 16], r: Registers, k: usize, s: u32, t: u32) -> Registers
    requires { (k < 16) × (0 < s) × (s < 32) }
    ensures { result ≡ operation round x.now r k s t }
{
    let f = mixed(round, r.b, r.c, r.d);
    let all = r.a.wrapping_add(f).wrapping_add(x[k]).wrapping_add(t);
    Registers {
        a: r.d,
        b: r.b.wrapping_add(all.rotate_left(s)),
        c: r.b,
        d: r.c,
    }
}

// The words of the block from index at.
fn words(bytes: &[u8], at: usize) -> [u32; 16]
    requires { at + 64 ≤ length bytes.now }
    ensures { result ≡ words 16 bytes.now at }
{
    let mut x = [0; 16];
    for j in 0..16 {
        x[j] = word(bytes, at + j * 4);
    }
    x
}

// Round 1: k, s and T[i] of its operations.
fn first_round(x: &[u32; 16], r: Registers) -> Registers
    ensures { result ≡ steps First x.now 16 r }
{
    let q = operation(Round::First, x, r, 0, 7, 0xd76a_a478);
    let q = operation(Round::First, x, q, 1, 12, 0xe8c7_b756);
    let q = operation(Round::First, x, q, 2, 17, 0x2420_70db);
    let q = operation(Round::First, x, q, 3, 22, 0xc1bd_ceee);
    let q = operation(Round::First, x, q, 4, 7, 0xf57c_0faf);
    let q = operation(Round::First, x, q, 5, 12, 0x4787_c62a);
    let q = operation(Round::First, x, q, 6, 17, 0xa830_4613);
    let q = operation(Round::First, x, q, 7, 22, 0xfd46_9501);
    let q = operation(Round::First, x, q, 8, 7, 0x6980_98d8);
    let q = operation(Round::First, x, q, 9, 12, 0x8b44_f7af);
    let q = operation(Round::First, x, q, 10, 17, 0xffff_5bb1);
    let q = operation(Round::First, x, q, 11, 22, 0x895c_d7be);
    let q = operation(Round::First, x, q, 12, 7, 0x6b90_1122);
    let q = operation(Round::First, x, q, 13, 12, 0xfd98_7193);
    let q = operation(Round::First, x, q, 14, 17, 0xa679_438e);
    let q = operation(Round::First, x, q, 15, 22, 0x49b4_0821);
    q
}

// Round 2: k, s and T[i] of its operations.
fn second_round(x: &[u32; 16], r: Registers) -> Registers
    ensures { result ≡ steps Second x.now 16 r }
{
    let q = operation(Round::Second, x, r, 1, 5, 0xf61e_2562);
    let q = operation(Round::Second, x, q, 6, 9, 0xc040_b340);
    let q = operation(Round::Second, x, q, 11, 14, 0x265e_5a51);
    let q = operation(Round::Second, x, q, 0, 20, 0xe9b6_c7aa);
    let q = operation(Round::Second, x, q, 5, 5, 0xd62f_105d);
    let q = operation(Round::Second, x, q, 10, 9, 0x0244_1453);
    let q = operation(Round::Second, x, q, 15, 14, 0xd8a1_e681);
    let q = operation(Round::Second, x, q, 4, 20, 0xe7d3_fbc8);
    let q = operation(Round::Second, x, q, 9, 5, 0x21e1_cde6);
    let q = operation(Round::Second, x, q, 14, 9, 0xc337_07d6);
    let q = operation(Round::Second, x, q, 3, 14, 0xf4d5_0d87);
    let q = operation(Round::Second, x, q, 8, 20, 0x455a_14ed);
    let q = operation(Round::Second, x, q, 13, 5, 0xa9e3_e905);
    let q = operation(Round::Second, x, q, 2, 9, 0xfcef_a3f8);
    let q = operation(Round::Second, x, q, 7, 14, 0x676f_02d9);
    let q = operation(Round::Second, x, q, 12, 20, 0x8d2a_4c8a);
    q
}

// Round 3: k, s and T[i] of its operations.
fn third_round(x: &[u32; 16], r: Registers) -> Registers
    ensures { result ≡ steps Third x.now 16 r }
{
    let q = operation(Round::Third, x, r, 5, 4, 0xfffa_3942);
    let q = operation(Round::Third, x, q, 8, 11, 0x8771_f681);
    let q = operation(Round::Third, x, q, 11, 16, 0x6d9d_6122);
    let q = operation(Round::Third, x, q, 14, 23, 0xfde5_380c);
    let q = operation(Round::Third, x, q, 1, 4, 0xa4be_ea44);
    let q = operation(Round::Third, x, q, 4, 11, 0x4bde_cfa9);
    let q = operation(Round::Third, x, q, 7, 16, 0xf6bb_4b60);
    let q = operation(Round::Third, x, q, 10, 23, 0xbebf_bc70);
    let q = operation(Round::Third, x, q, 13, 4, 0x289b_7ec6);
    let q = operation(Round::Third, x, q, 0, 11, 0xeaa1_27fa);
    let q = operation(Round::Third, x, q, 3, 16, 0xd4ef_3085);
    let q = operation(Round::Third, x, q, 6, 23, 0x0488_1d05);
    let q = operation(Round::Third, x, q, 9, 4, 0xd9d4_d039);
    let q = operation(Round::Third, x, q, 12, 11, 0xe6db_99e5);
    let q = operation(Round::Third, x, q, 15, 16, 0x1fa2_7cf8);
    let q = operation(Round::Third, x, q, 2, 23, 0xc4ac_5665);
    q
}

// Round 4: k, s and T[i] of its operations.
fn fourth_round(x: &[u32; 16], r: Registers) -> Registers
    ensures { result ≡ steps Fourth x.now 16 r }
{
    let q = operation(Round::Fourth, x, r, 0, 6, 0xf429_2244);
    let q = operation(Round::Fourth, x, q, 7, 10, 0x432a_ff97);
    let q = operation(Round::Fourth, x, q, 14, 15, 0xab94_23a7);
    let q = operation(Round::Fourth, x, q, 5, 21, 0xfc93_a039);
    let q = operation(Round::Fourth, x, q, 12, 6, 0x655b_59c3);
    let q = operation(Round::Fourth, x, q, 3, 10, 0x8f0c_cc92);
    let q = operation(Round::Fourth, x, q, 10, 15, 0xffef_f47d);
    let q = operation(Round::Fourth, x, q, 1, 21, 0x8584_5dd1);
    let q = operation(Round::Fourth, x, q, 8, 6, 0x6fa8_7e4f);
    let q = operation(Round::Fourth, x, q, 15, 10, 0xfe2c_e6e0);
    let q = operation(Round::Fourth, x, q, 6, 15, 0xa301_4314);
    let q = operation(Round::Fourth, x, q, 13, 21, 0x4e08_11a1);
    let q = operation(Round::Fourth, x, q, 4, 6, 0xf753_7e82);
    let q = operation(Round::Fourth, x, q, 11, 10, 0xbd3a_f235);
    let q = operation(Round::Fourth, x, q, 2, 15, 0x2ad7_d2bb);
    let q = operation(Round::Fourth, x, q, 9, 21, 0xeb86_d391);
    q
}

// Each register of q, added to that of r.
fn added(r: Registers, q: Registers) -> Registers
    ensures { result ≡ added r q }
{
    Registers {
        a: q.a.wrapping_add(r.a),
        b: q.b.wrapping_add(r.b),
        c: q.c.wrapping_add(r.c),
        d: q.d.wrapping_add(r.d),
    }
}

// The block from index at.
fn block(bytes: &[u8], at: usize, r: Registers) -> Registers
    requires { at + 64 ≤ length bytes.now }
    ensures { result ≡ block (words 16 bytes.now at) r }
{
    let x = words(bytes, at);
    let first = first_round(&x, r);
    let second = second_round(&x, first);
    let third = third_round(&x, second);
    let fourth = fourth_round(&x, third);
    added(r, fourth)
}

// The first n blocks, one after the other.
fn blocks(bytes: &[u8], n: usize, r: Registers) -> Registers
    requires { n * 64 ≤ length bytes.now }
    ensures { result ≡ blocks bytes.now n r }
{
    let mut q = r;
    for i in 0..n {
        q = block(bytes, i * 64, q);
    }
    q
}

// ---- sections 3.1, 3.2 and 3.5: the message's end, and the digest

// The length of a message in bits, modulo 2^64.
fn bit_length(n: usize) -> u64
    ensures { result ≡ bit_length n }
{
    (n as u64).wrapping_mul(8)
}

// How many blocks the last bytes take, with their padding and the length: a second one where they leave no room for 9 bytes.
fn tail_blocks(rest: usize) -> usize
    requires { rest < 64 }
    ensures { result ≡ (rest + 72) / 64 }
{
    if rest < 56 { 1 } else { 2 }
}

// What follows a message's whole blocks: its last bytes, their padding and the length, and zeros behind them.
fn tail(message: &[u8]) -> [u8; 128]
    ensures { result ≡ tail_of message.now }
{
    let n = message.len();
    let rest = n % 64;
    let mut bytes = [0u8; 128];
    octets::copy(message, n - rest, &mut bytes, 0, rest);
    bytes[rest] = 0x80;
    let end = tail_blocks(rest) * 64 - 8;
    bytes[end..end + 8].copy_from_slice(&bit_length(n).to_le_bytes());
    bytes
}

// The 16 bytes of the registers.
fn digest(r: Registers) -> [u8; 16]
    ensures { result ≡ digest r }
{
    let mut bytes = [0u8; 16];
    bytes[0..4].copy_from_slice(&r.a.to_le_bytes());
    bytes[4..8].copy_from_slice(&r.b.to_le_bytes());
    bytes[8..12].copy_from_slice(&r.c.to_le_bytes());
    bytes[12..16].copy_from_slice(&r.d.to_le_bytes());
    bytes
}

// The digest of a message.
pub fn md5(message: &[u8]) -> [u8; 16]
    ensures { result ≡ md5_of message.now }
{
    let n = message.len();
    let whole = blocks(message, n / 64, initial());
    let end = tail(message);
    digest(blocks(&end, tail_blocks(n % 64), whole))
}
