// How many instance places there are, 32 or 128 (document 02, ticket 5): the head says it, or, where no head is lent, the
// length of pens. And the lengths of the state's buffers, of which that of pens alone follows from it.
#![tactic(auto)]

ghost use Rattle.std.specs.Prelude.{◌&&◌, ◌≡◌, ◌*◌, ◌≤◌, eqb};
ghost use Rattle.model.specs.State.{figure_ok, places_in};

// Whether a head's figure is one of the two.
pub fn figure_ok(places: u16) -> bool
    ensures { result ≡ figure_ok places }
{
    places == 32 || places == 128
}

// The places of a table by its length alone.
pub fn places_in(pens: &[u8]) -> usize
    ensures places { result ≡ places_in pens.now }
    ensures few { result ≤ 128 }
{
    if pens.len() == 16384 { 32 } else { 128 }
}

// Whether the buffers of a state with so many places have their lengths.
pub fn room_ok(places: usize, pens: usize, writers: usize, lost: usize) -> bool
    requires { places ≤ 128 }
    ensures { result ≡ (eqb pens (places * 512) && (eqb writers 5120 && eqb lost 4096)) }
{
    pens == places * 512 && writers == 5120 && lost == 4096
}
