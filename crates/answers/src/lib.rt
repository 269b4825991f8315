// What a call answers, by value: each function makes the answer that the definition of its name in model's Answers says. A
// field that is not answered is zero.
#![tactic(auto)]

ghost use Rattle.std.specs.Prelude.{◌≡◌};
ghost use Rattle.model.specs.Answers.{no_info, no_status, refused_with, silent, saying, counting, listing, handed, handed_samples, info_of, informed, saying_due, reporting};

use model::{
    Answer, Called, Head, InstanceHandle, InstanceState, InstanceStateKind,
    LivelinessChangedStatus, MaybeDue, SampleInfo,
};

fn no_info() -> SampleInfo
    ensures { result ≡ no_info }
{
    SampleInfo {
        view_new: false,
        kind: InstanceStateKind::Alive,
        disposed_generations: 0,
        no_writers_generations: 0,
    }
}

fn no_status() -> LivelinessChangedStatus
    ensures { result ≡ no_status }
{
    LivelinessChangedStatus {
        alive_count: 0,
        not_alive_count: 0,
        alive_count_change: 0,
        not_alive_count_change: 0,
        last_publication_handle: InstanceHandle(0),
    }
}

// Accepted, and nothing more to say; also "none".
pub fn silent() -> Answer
    ensures { result ≡ silent }
{
    Answer {
        number: 0,
        outcome: 0,
        yes: false,
        present: false,
        handle: InstanceHandle(0),
        samples: 0,
        info: no_info(),
        count: 0,
        listed: 0,
        next_due: MaybeDue {
            present: false,
            at: 0,
        },
        status: no_status(),
    }
}

// A refusal: its number.
pub fn refused_with(n: u8) -> Answer
    ensures { result ≡ refused_with n }
{
    Answer {
        number: n,
        ..silent()
    }
}

// A refused call: the number, and the head as it was.
pub fn refused(number: u8, head: Head) -> Called
    ensures { result ≡ record { answer = refused_with number; head = head } }
{
    Called {
        answer: refused_with(number),
        head,
    }
}

// Yes or no.
pub fn saying(yes: bool) -> Answer
    ensures { result ≡ saying yes }
{
    Answer { yes, ..silent() }
}

// A number of instances.
pub fn counting(n: u32) -> Answer
    ensures { result ≡ counting n }
{
    Answer {
        count: n,
        ..silent()
    }
}

// A number of entries in Out.
pub fn listing(n: u32) -> Answer
    ensures { result ≡ listing n }
{
    Answer {
        listed: n,
        ..silent()
    }
}

// A handle and the samples of its instance.
pub fn handed_samples(h: InstanceHandle, samples: u32) -> Answer
    ensures { result ≡ handed_samples h samples }
{
    Answer {
        present: true,
        handle: h,
        samples,
        ..silent()
    }
}

// A handle.
pub fn handed(h: InstanceHandle) -> Answer
    ensures { result ≡ handed h }
{
    handed_samples(h, 0)
}

// What a SampleInfo takes from its instance.
pub fn info_of(x: InstanceState) -> SampleInfo
    ensures { result ≡ info_of x }
{
    SampleInfo {
        view_new: x.life.view_new,
        kind: x.life.kind,
        disposed_generations: x.life.disposed_generations,
        no_writers_generations: x.life.no_writers_generations,
    }
}

// The four fields for a SampleInfo.
pub fn informed(info: SampleInfo) -> Answer
    ensures { result ≡ informed info }
{
    Answer {
        present: true,
        info,
        ..silent()
    }
}

// Yes or no, and when the next lease is due.
pub fn saying_due(yes: bool, due: MaybeDue) -> Answer
    ensures { result ≡ saying_due yes due }
{
    Answer {
        next_due: due,
        ..saying(yes)
    }
}

// A status.
pub fn reporting(status: LivelinessChangedStatus) -> Answer
    ensures { result ≡ reporting status }
{
    Answer { status, ..silent() }
}
