// The writer set of an instance, by value: up to 16 GUIDs, strictly rising. What its functions give stands in model's Sets.
#![tactic(auto)]

ghost use Rattle.std.specs.Prelude.{◌≡◌, ◌≤◌, ◌<◌, length, not};
ghost use Rattle.std.specs.List.{position_or_len};
ghost use Rattle.model.specs.Guids.{less};
ghost use Rattle.model.specs.Sets.{members, set_of, has, insert, remove, is_empty};
ghost use Rattle.writer_set.specs.Places.{Sound, inserted_at, removed_at};

use model::{Guid, WriterSet};

// Where g stands or belongs: the place of the first member that is not less than it, or else the end.
fn place(w: WriterSet, g: Guid) -> usize
    requires { w.len ≤ 16 }
    ensures { result ≡ position_or_len (λ x. not (less x g)) (members w) }
{
    w.items[..w.len]
        .iter()
        .position(|x| !guid::is_less(*x, g))
        .unwrap_or(w.len)
}

// g at place p; the last is pushed out.
fn inserted_at(items: [Guid; 16], p: usize, g: Guid) -> [Guid; 16]
    requires { p < 16 }
    ensures { result ≡ inserted_at items p g }
{
    let mut r = items;
    r[p..].rotate_right(1);
    r[p] = g;
    r
}

// The GUID at place p taken out, nil behind the others.
fn removed_at(items: [Guid; 16], p: usize) -> [Guid; 16]
    requires { p < 16 }
    ensures { result ≡ removed_at items p }
{
    let mut r = items;
    r[p..].rotate_left(1);
    r[15] = guid::nil();
    r
}

// Whether g is a member.
pub fn holds(w: WriterSet, g: Guid) -> bool
    requires { w.len ≤ 16 }
    ensures { result ≡ has g (members w) }
{
    w.items[..w.len].iter().any(|x| guid::is_same(*x, g))
}

// Whether there are no members.
pub fn is_empty(w: WriterSet) -> bool
    requires { Sound w }
    ensures { result ≡ is_empty (members w) }
{
    w.len == 0
}

// The set with g in its place; the same where g is a member.
pub fn with_writer(w: WriterSet, g: Guid) -> WriterSet
    requires { Sound w × (length (insert g (members w)) ≤ 16) }
    ensures { result ≡ set_of (insert g (members w)) }
{
    let p = place(w, g);
    if p < w.len && guid::is_same(w.items[p], g) {
        return w;
    }
    WriterSet {
        len: w.len + 1,
        items: inserted_at(w.items, p, g),
    }
}

// The set without g.
pub fn without_writer(w: WriterSet, g: Guid) -> WriterSet
    requires { Sound w }
    ensures { result ≡ set_of (remove g (members w)) }
{
    match w.items[..w.len].iter().position(|x| guid::is_same(*x, g)) {
        Some(p) => WriterSet {
            len: w.len - 1,
            items: removed_at(w.items, p),
        },
        None => w,
    }
}
