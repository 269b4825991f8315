// Keys and GUIDs: their bytes, their order, their equality and their prefix, as model's definitions say.
#![tactic(auto)]

ghost use Rattle.std.specs.Prelude.{◌≡◌, ◌+◌, ◌≤◌, length};
ghost use Rattle.octets.specs.Octets.{put};
ghost use Rattle.model.specs.Guids.{guid_at, less, same, same_prefix, nil};

use model::Guid;

// The GUID of the 16 bytes from at.
pub fn guid_at(s: &[u8], at: usize) -> Guid
    requires { at + 16 ≤ length s.now }
    ensures { result ≡ guid_at s.now at }
{
    let hi = octets::get_u64(s, at);
    let lo = octets::get_u64(s, at + 8);
    Guid { hi, lo }
}

// The 16 bytes of g are written from at.
pub fn put_guid(s: &mut [u8], at: usize, g: Guid)
    requires { at + 16 ≤ length s.old }
    ensures { s.new ≡ put 8 (put 8 s.old at g.hi) (at + 8) g.lo }
{
    octets::put_u64(s, at, g.hi);
    octets::put_u64(s, at + 8, g.lo);
}

// Whether a stands before b in byte order.
pub fn is_less(a: Guid, b: Guid) -> bool
    ensures { result ≡ less a b }
{
    a < b
}

// Whether a and b are the same 16 bytes.
pub fn is_same(a: Guid, b: Guid) -> bool
    ensures { result ≡ same a b }
{
    a == b
}

// Whether a and b share their first 12 bytes, the prefix of their participant.
pub fn same_prefix(a: Guid, b: Guid) -> bool
    ensures { result ≡ same_prefix a b }
{
    a.hi == b.hi && a.lo / 4294967296 == b.lo / 4294967296
}

// The GUID of zeros, which stands where none is present.
pub fn nil() -> Guid
    ensures { result ≡ nil }
{
    Guid { hi: 0, lo: 0 }
}
