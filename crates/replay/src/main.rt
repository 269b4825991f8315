// Replays the recorded lists (docs/evidence/LISTS.md) from standard input against the entry: a line for each disagreement, then how
// many calls there were and how many disagreed. What it prints is compared with the file `stdout`.
#![tactic(auto)]

ghost use Rattle.std.specs.Prelude.{◌≤◌};

use model::{Called, Head};
use std::io;
use std::io::Read;

fn main(rt: HostRuntime) -> io::Result<()> {
    let mut replay = Replay::new();
    let ended = replay.run(&rt, &mut rt.stdin())?;
    if !ended {
        println!(rt; "the file has no end")?;
    }
    println!(rt; "{} calls, {} disagreements", replay.calls, replay.wrong)
}

// ---- records

// What a record is for.
#[derive(Clone, Copy)]
enum Kind {
    Begin,
    List,
    Put,
    Head,
    Call,
    Expect,
    End,
}

impl From<u8> for Kind {
    fn from(number: u8) -> Kind {
        match number {
            1 => Kind::Begin,
            2 => Kind::List,
            3 => Kind::Put,
            4 => Kind::Head,
            5 => Kind::Call,
            6 => Kind::Expect,
            _ => Kind::End,
        }
    }
}

// A record of the file.
#[derive(Clone, Copy)]
struct Record<'a> {
    kind: Kind,
    body: &'a [u8],
}

// The next record, if there is a whole one; its body is the front of a buffer.
fn next_record<'a>(input: &mut impl Read, buffer: &'a mut [u8; 4792]) -> Option<Record<'a>> {
    let mut front = [0; 8];
    if input.read_exact(&mut front).is_err() {
        return None;
    }
    let n = (octets::get_u32(&front, 4) as usize).min(4792);
    let body = &mut buffer[..n];
    if input.read_exact(body).is_err() {
        return None;
    }
    Some(Record {
        kind: Kind::from(front[0]),
        body,
    })
}

// ---- the buffers

// The state's buffers, each as long as the longest that a call lends.
#[derive(Drop)]
struct Buffers {
    pens: [u8; 66048],
    writers: [u8; 5160],
    lost: [u8; 4112],
}

impl Buffers {
    // Each is zero.
    fn zeros() -> Buffers {
        Buffers {
            pens: [0; 66048],
            writers: [0; 5160],
            lost: [0; 4112],
        }
    }

    // The fronts become those of the fresh state with so many places for instances.
    fn fresh(&mut self, places: usize) -> Head
        requires { places ≤ 128 }
    {
        let pens = front(&mut self.pens, places * 512);
        let writers = front(&mut self.writers, 5120);
        let lost = front(&mut self.lost, 4096);
        dcps::fresh(pens, writers, lost).head
    }

    // What stands behind the lengths of a state becomes zero, in pens from the smaller of the two on.
    fn clear_rest(&mut self) {
        self.pens[16384..].fill(0);
        self.writers[5120..].fill(0);
        self.lost[4096..].fill(0);
    }

    // The buffer that a put or an expect record names.
    fn named(&self, number: u8) -> &[u8] {
        match number {
            0 => &self.pens,
            1 => &self.writers,
            _ => &self.lost,
        }
    }

    // The same, to be changed.
    fn named_mut(&mut self, number: u8) -> &mut [u8] {
        match number {
            0 => &mut self.pens,
            1 => &mut self.writers,
            _ => &mut self.lost,
        }
    }
}

// The bytes of a put record go into a buffer; what does not fit is left out.
fn put(bytes: &[u8], at: usize, buffer: &mut [u8]) {
    if let Some(rest) = buffer.get_mut(at..)
        && let Some(place) = rest.get_mut(..bytes.len())
    {
        place.copy_from_slice(bytes);
    }
}

// The bytes of an expect record stand in a buffer.
fn stands(bytes: &[u8], at: usize, buffer: &[u8]) -> bool {
    match buffer.get(at..) {
        Some(rest) => rest.starts_with(bytes),
        None => false,
    }
}

// The front of a buffer, cut to what there is.
fn front(buffer: &mut [u8], n: usize) -> &mut [u8] {
    let most = n.min(buffer.len());
    &mut buffer[..most]
}

// ---- the replay

// How far the replay is.
#[derive(Drop)]
struct Replay {
    list: u32,
    calls: u64,
    wrong: u64,
    head: Head,
    buffers: Buffers,
}

impl Replay {
    // Before the first record.
    fn new() -> Replay {
        let mut buffers = Buffers::zeros();
        let head = buffers.fresh(128);
        Replay {
            list: 0,
            calls: 0,
            wrong: 0,
            head,
            buffers,
        }
    }

    // The records of the file, one after the other: whether the last one is there.
    fn run(&mut self, rt: &impl Print, input: &mut impl Read) -> io::Result<bool> {
        let mut buffer = [0; 4792];
        for _ in 0..10_000_000 {
            let Some(record) = next_record(input, &mut buffer) else {
                return Ok(false);
            };
            if self.record(rt, record)? {
                return Ok(true);
            }
        }
        Ok(false)
    }

    // One record: whether it is the last.
    fn record(&mut self, rt: &impl Print, record: Record) -> io::Result<bool> {
        let body = record.body;
        match record.kind {
            Kind::Begin => {}
            Kind::List => self.begin(body),
            Kind::Put => self.change(body),
            Kind::Head => self.headed(body),
            Kind::Call => self.call(rt, body)?,
            Kind::Expect => self.expect(rt, body)?,
            Kind::End => return Ok(true),
        }
        Ok(false)
    }

    // A new list, from the fresh state with 32 places, or else 128.
    fn begin(&mut self, body: &[u8]) {
        self.buffers.clear_rest();
        let small = 8 <= body.len() && octets::get_u16(body, 6) == 32;
        self.head = self.buffers.fresh(if small { 32 } else { 128 });
        if 4 <= body.len() {
            self.list = octets::get_u32(body, 0);
        }
    }

    // A put record.
    fn change(&mut self, body: &[u8]) {
        if let Some((front, bytes)) = body.split_first_chunk::<8>() {
            let at = octets::get_u32(front, 4) as usize;
            put(bytes, at, self.buffers.named_mut(front[0]));
        }
    }

    // A head record.
    fn headed(&mut self, body: &[u8]) {
        if body.len() == 64 {
            self.head = boundary::read_head(body);
        }
    }

    // An expect record.
    fn expect(&mut self, rt: &impl Print, body: &[u8]) -> io::Result<()> {
        let Some((front, bytes)) = body.split_first_chunk::<8>() else {
            return self.disagrees(rt, "an expect record is too short");
        };
        let at = octets::get_u32(front, 4) as usize;
        if stands(bytes, at, self.buffers.named(front[0])) {
            Ok(())
        } else {
            self.disagrees(rt, "a record")
        }
    }

    // A call record.
    fn call(&mut self, rt: &impl Print, body: &[u8]) -> io::Result<()> {
        if let Some((recorded, rest)) = body.split_first_chunk::<184>()
            && let Some(sheet) = rest.get(..sheet_length(recorded))
        {
            self.made(rt, recorded, sheet)
        } else {
            self.disagrees(rt, "a call record is too short")
        }
    }

    // A call is made, and what it answered and left is compared with what was recorded.
    fn made(&mut self, rt: &impl Print, recorded: &[u8; 184], sheet: &[u8]) -> io::Result<()> {
        let mut whole_out = [recorded[12]; 4112];
        let out = front(&mut whole_out, octets::get_u16(recorded, 2) as usize);
        let pens = front(
            &mut self.buffers.pens,
            octets::get_u32(recorded, 4) as usize,
        );
        let writers = front(
            &mut self.buffers.writers,
            octets::get_u16(recorded, 8) as usize,
        );
        let lost = front(
            &mut self.buffers.lost,
            octets::get_u16(recorded, 10) as usize,
        );
        let called = dcps::call(self.head, sheet, pens, writers, lost, out);
        let digests = [
            ("Out", 16, instance_handle::fnv_1a(out)),
            ("pens", 24, instance_handle::fnv_1a(pens)),
            ("writers", 32, instance_handle::fnv_1a(writers)),
            ("Lost", 40, instance_handle::fnv_1a(lost)),
        ];
        self.calls = self.calls.wrapping_add(1);
        self.answered(rt, recorded, called)?;
        for (what, at, digest) in digests {
            if octets::get_u64(recorded, at) != digest {
                self.disagrees(rt, what)?;
            }
        }
        Ok(())
    }

    // The answer and the head after a call are those recorded.
    fn answered(
        &mut self,
        rt: &impl Print,
        recorded: &[u8; 184],
        called: Called,
    ) -> io::Result<()> {
        let mut answer = [0; 72];
        boundary::write_answer(&mut answer, called.answer);
        if !recorded[48..].starts_with(&answer) {
            self.disagrees(rt, "answer")?;
        }
        let mut head = [0; 64];
        boundary::write_head(&mut head, called.head);
        if !recorded[120..].starts_with(&head) {
            self.disagrees(rt, "head")?;
        }
        self.head = called.head;
        Ok(())
    }

    // One more disagreement, told by what disagrees.
    fn disagrees(&mut self, rt: &impl Print, what: &str) -> io::Result<()> {
        self.wrong = self.wrong.wrapping_add(1);
        println!(rt; "list {}, call {}: {what}", self.list, self.calls)
    }
}

// The length of a call record's sheet, 512 at most.
fn sheet_length(recorded: &[u8; 184]) -> usize
    ensures { result ≤ 512 }
{
    (octets::get_u16(recorded, 0) as usize).min(512)
}
