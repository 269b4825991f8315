// Tables in a slice: records of one size end to end, each with a 16-byte key in front, the keys rising.
#![tactic(auto)]

ghost use Rattle.std.specs.Prelude.{true, ◌≡◌, ◌+◌, ◌*◌, ◌≤◌, ◌<◌, length};
ghost use Rattle.model.specs.Guids.{num};
ghost use Rattle.tables.specs.Keys.{keys, rising};
ghost use Rattle.tables.specs.Found.{lower_bound, found_in};
ghost use Rattle.tables.specs.Gaps.{opened, closed};

use model::Guid;

// Whether the keys of the first count records rise.
pub fn keys_rise(t: &[u8], size: usize, count: usize) -> bool
    requires { (16 ≤ size) × (count * size ≤ length t.now) }
    ensures { result ≡ rising (keys size count t.now) }
{
    if count == 0 {
        return true;
    }
    let mut last = guid::guid_at(t, 0);
    for i in 1..count {
        let next = guid::guid_at(t, i * size);
        if !guid::is_less(last, next) {
            return false;
        }
        last = next;
    }
    true
}

// How many of the first count records stand before the key: a binary search, in 16 bits, as there are 128 at most. By hand,
// since the records lie in bytes at a size that only the caller knows, and std's searches are over slices of elements.
pub fn lower_bound(t: &[u8], size: usize, count: usize, key: Guid) -> usize
    requires { (16 ≤ size) × (count ≤ 128) × (count * size ≤ length t.now) × (rising (keys size count t.now) ≡ true) }
    ensures { result ≡ lower_bound (keys size count t.now) (num key) }
{
    let mut lo = 0u16;
    let mut hi = count as u16;
    while lo < hi {
        let mid = (lo + hi) / 2;
        if guid::is_less(guid::guid_at(t, usize::from(mid) * size), key) {
            lo = mid + 1;
        } else {
            hi = mid;
        }
    }
    usize::from(lo)
}

// The place of the key among the first count records, or where its record would go in.
pub fn find(t: &[u8], size: usize, count: usize, key: Guid) -> Result<usize, usize>
    requires { (16 ≤ size) × (count ≤ 128) × (count * size ≤ length t.now) × (rising (keys size count t.now) ≡ true) }
    ensures { result ≡ found_in (keys size count t.now) (num key) }
{
    let place = lower_bound(t, size, count, key);
    if place < count {
        if guid::is_same(guid::guid_at(t, place * size), key) {
            return Ok(place);
        }
    }
    Err(place)
}

// The records from place at on move up by one place. The record there is left for the caller to write over.
pub fn open_gap(t: &mut [u8], size: usize, at: usize, count: usize)
    requires { (at ≤ count) × (count * size + size ≤ length t.old) }
    ensures { t.new ≡ opened size at count t.old }
{
    octets::move_up(t, at * size + size, at * size, (count - at) * size);
}

// The record at place at is taken out: those behind it move down by one place, and the last place is cleared.
pub fn close_gap(t: &mut [u8], size: usize, at: usize, count: usize)
    requires { (at < count) × (count * size ≤ length t.old) }
    ensures { t.new ≡ closed size at count t.old }
{
    octets::move_down(t, at * size, at * size + size, (count - (at + 1)) * size);
    octets::clear(t, (count - 1) * size, size);
}
