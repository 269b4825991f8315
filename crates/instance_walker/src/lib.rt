// A walker over the instance table: the table and a position. Each step gives the handle of the instance there, in key
// order, then none. It is thin over instance_reads::handle_at_position and asks nothing of what it is lent.
#![tactic(auto)]

ghost use Rattle.std.specs.Prelude.{◌≡◌};
ghost use Rattle.model.specs.Reads.{walk_read};
ghost use Rattle.model.specs.State.{places_in};
ghost use Rattle.instance_walker.specs.Walk.{walked};

use model::FoundHandle;

// What a step answers, and where the walker stands after it.
#[derive(Clone, Copy)]
pub struct Walked {
    pub found: FoundHandle,
    pub position: usize,
}

// The step by value: the walker moves on behind a handle that it gives.
pub fn step_by_value(pens: &[u8], position: usize) -> Walked
    ensures { result ≡ walked (places_in pens.now) pens.now position }
{
    let found = instance_reads::handle_at_position(pens, position);
    match found {
        FoundHandle::Refused(_) => Walked { found, position },
        FoundHandle::Missing => Walked { found, position },
        FoundHandle::Is(_) => {
            let next = position + 1;
            Walked {
                found: found,
                position: next,
            }
        }
    }
}

// Walks are in key order, from any position.
#[derive(Clone, Copy)]
pub struct InstanceWalker<'a> {
    pub pens: &'a [u8],
    pub position: usize,
}

// One step of the walker.
pub fn step<'s, 'a>(w: &'s mut InstanceWalker<'a>) -> FoundHandle
    ensures { (result ≡ (walked (places_in w.old.pens.now) w.old.pens.now w.old.position).found)
        × ((w.new.pens ≡ w.old.pens)
        × (w.new.position ≡ (walked (places_in w.old.pens.now) w.old.pens.now w.old.position).position)) }
{
    let walked = step_by_value(w.pens, w.position);
    w.position = walked.position;
    walked.found
}

// One step of a walker at the position, and where it stands then: for callers that have a table and a number.
pub fn step_at(pens: &[u8], position: usize) -> Walked
    ensures { result ≡ walked (places_in pens.now) pens.now position }
{
    let mut w = InstanceWalker { pens, position };
    let found = step(&mut w);
    Walked {
        found: found,
        position: w.position,
    }
}

// What a walker at the position gives.
pub fn handle_at(pens: &[u8], position: usize) -> FoundHandle
    ensures { result ≡ walk_read (places_in pens.now) pens.now position }
{
    let walked = step_at(pens, position);
    let found = walked.found;
    found
}
