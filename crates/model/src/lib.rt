// The types that code and definitions share. Their meaning stands in specs/, a file for each section of the scope document or
// a part of one; no function stands here.
//
// Derives from instance_tracker.rs, liveliness_tracker.rs and instance_handle.rs of ZeroDDS.
// Copyright 2026 ZeroDDS Contributors. SPDX-License-Identifier: Apache-2.0. Changed: written anew in Rattle, with the
// state as plain values of a fixed size.
#![tactic(auto)]

// Sixteen bytes, most significant first: a key (the Rust's KeyHash) or a writer's GUID.
#[derive(Clone, Copy, Debug, PartialEq, Eq, PartialOrd, Ord)]
pub struct Guid {
    pub hi: u64,
    pub lo: u64,
}

// A handle is neither a count nor a code; 0 is nil.
#[derive(Clone, Copy, Debug, PartialEq, Eq)]
pub struct InstanceHandle(pub u64);

// Time as a caller gives it and gets it.
#[derive(Clone, Copy, Debug, PartialEq, Eq)]
pub struct Time {
    pub sec: i32,
    pub nanosec: u32,
}

// An optional time as the records hold it: the seconds by their 32 bits in two's complement, zeros where absent.
#[derive(Clone, Copy)]
pub struct MaybeTime {
    pub present: bool,
    pub sec: u32,
    pub nanosec: u32,
}

#[derive(Clone, Copy, Debug, PartialEq, Eq)]
pub enum InstanceStateKind {
    Alive,
    NotAliveDisposed,
    NotAliveNoWriters,
}

// The lifecycle of an instance and what is counted of it.
#[derive(Clone, Copy)]
pub struct Life {
    pub kind: InstanceStateKind,
    pub view_new: bool,
    pub disposed_generations: u32,
    pub no_writers_generations: u32,
    pub writer_count: u32,
    pub samples: u32,
}

#[derive(Clone, Copy)]
pub struct Times {
    pub last_sample: MaybeTime,
    pub last_delivered: MaybeTime,
    pub last_filter: MaybeTime,
    pub disposed_at: MaybeTime,
    pub no_writers_at: MaybeTime,
    pub owner_at: MaybeTime,
}

// The owner of an instance under exclusive ownership; the strength by its 32 bits in two's complement.
#[derive(Clone, Copy)]
pub struct MaybeOwner {
    pub present: bool,
    pub guid: Guid,
    pub strength: u32,
}

// The bytes from which a key was made, zeros behind them.
#[derive(Clone, Copy)]
pub struct Holder {
    pub present: bool,
    pub len: u16,
    pub bytes: [u8; 144],
}

// The writers of an instance, strictly rising, nil GUIDs behind them.
#[derive(Clone, Copy)]
pub struct WriterSet {
    pub len: usize,
    pub items: [Guid; 16],
}

// What a call may change of an instance: all but its key and its handle.
#[derive(Clone, Copy)]
pub struct InstanceState {
    pub life: Life,
    pub times: Times,
    pub owner: MaybeOwner,
    pub holder: Holder,
    pub writers: WriterSet,
}

#[derive(Clone, Copy)]
pub struct Instance {
    pub key: Guid,
    pub handle: InstanceHandle,
    pub state: InstanceState,
}

#[derive(Clone, Copy, Debug, PartialEq, Eq)]
pub enum LivelinessKind {
    Automatic,
    ManualByParticipant,
    ManualByTopic,
}

// Where a writer stands. A departed one was lost with its participant and has not matched since.
#[derive(Clone, Copy, Debug, PartialEq, Eq)]
pub enum WriterState {
    Unasserted,
    Alive,
    NotAlive,
    Departed,
}

// A lease in nanoseconds; an absent one is infinite.
#[derive(Clone, Copy)]
pub struct MaybeLease {
    pub present: bool,
    pub nanos: u64,
}

// The liveliness of one writer.
#[derive(Clone, Copy)]
pub struct Liveliness {
    pub kind: LivelinessKind,
    pub state: WriterState,
    pub lease: MaybeLease,
    pub last_assertion: u64,
}

#[derive(Clone, Copy)]
pub struct Writer {
    pub guid: Guid,
    pub liveliness: Liveliness,
}

// The part of the state that goes by value; `last_writer` is the last writer whose class changed, `places` the number of
// instance places.
#[derive(Clone, Copy)]
pub struct Head {
    pub instance_count: u32,
    pub next_handle: InstanceHandle,
    pub writer_count: u32,
    pub lost_count: u32,
    pub alive: u32,
    pub not_alive: u32,
    pub alive_change: i32,
    pub not_alive_change: i32,
    pub last_writer: Option<Guid>,
    pub changes: u64,
    pub places: u16,
}

// The last code of each range of calls; the first ones are 1, 32 and 48.
pub const LAST_INSTANCE: u8 = 21;

pub const LAST_TRACKER: u8 = 40;

pub const LAST_JOINED: u8 = 51;

// The calls on instances, in the order of their codes.
#[derive(Clone, Copy, Debug, PartialEq, Eq)]
pub enum InstanceCall {
    Register,
    EnsureRegisteredLimited,
    Dispose,
    Unregister,
    UnregisterWriter,
    NoteWriter,
    DropWriter,
    ObserveLifecycle,
    ObserveAdmitted,
    NoteAdmitted,
    RecordDelivery,
    NoteTaken,
    MarkViewSeen,
    MarkViewNew,
    DrainSamples,
    AcceptUnderExclusiveOwnership,
    UpdateOwnerStrength,
    ClearOwnerForWriter,
    ClearOwnerForWriterPrefix,
    ReleaseOwnerOf,
    Autopurge,
}

// How a call on instances reaches: by key, which may start an absent instance, also up to a limit; by handle; or as a call on
// every instance.
#[derive(Clone, Copy, Debug, PartialEq, Eq)]
pub enum Reach {
    ByKey,
    StartingByKey,
    StartingWithin,
    ByHandle,
    Every,
}

// Whether a call uses a field of its sheet: never, where its presence bit is set, always.
#[derive(Clone, Copy, Debug, PartialEq, Eq)]
pub enum FieldUse {
    Never,
    IfPresent,
    Always,
}

// What a call on one instance answers: nothing, the handle, whether the instance is known, handle and samples, the fields for
// a SampleInfo, whether a sample is accepted, whether an owner is released.
#[derive(Clone, Copy, Debug, PartialEq, Eq)]
pub enum Says {
    Nothing,
    Handle,
    Known,
    Samples,
    Info,
    Accepted,
    Released,
}

// What a call on every instance reports of one: nothing, that it is left writerless, that its owner is cleared, by GUID or by
// prefix, or that it is purged.
#[derive(Clone, Copy, Debug, PartialEq, Eq)]
pub enum Report {
    Nothing,
    Left,
    Owner,
    Prefix,
    Purge,
}

// All that is said of a call on instances as a call, its effect apart. `says` is for a call on one instance, `reports` for a
// call on every.
#[derive(Clone, Copy)]
pub struct Rule {
    pub reach: Reach,
    pub adds_writer: bool,
    pub time_1: FieldUse,
    pub time_2: FieldUse,
    pub holder: FieldUse,
    pub says: Says,
    pub reports: Report,
}

// The calls on writers, in the order of their codes.
#[derive(Clone, Copy, Debug, PartialEq, Eq)]
pub enum TrackerCall {
    Matched,
    Unmatched,
    LostWithParticipant,
    WriterAsserted,
    ParticipantAsserted,
    Expire,
    TakeLost,
    TakeStatus,
    Acknowledge,
}

// The columns of a call on writers, whose rows are `tracker_rule` in Writers. The clocks of the sheet that it uses: A, and B as
// a lease by its bit.
#[derive(Clone, Copy, Debug, PartialEq, Eq)]
pub enum ClockUse {
    NoClock,
    Clock,
    ClockAndLease,
}

// What it does to Lost: nothing, puts the writers that changed class behind it, or empties it.
#[derive(Clone, Copy, Debug, PartialEq, Eq)]
pub enum LostUse {
    Leaves,
    Appends,
    Empties,
}

// What it acknowledges of both counts: nothing, the whole, or the part that the sheet gives.
#[derive(Clone, Copy, Debug, PartialEq, Eq)]
pub enum AcknowledgeUse {
    Nothing,
    Whole,
    Part,
}

// What it answers: whether a class changed, that and when the next lease runs out, the list of Lost, the status, or nothing.
#[derive(Clone, Copy, Debug, PartialEq, Eq)]
pub enum TrackerReport {
    Moved,
    MovedAndDue,
    Lost,
    Status,
    Silent,
}

// A call that matches takes the kind and puts a record in.
#[derive(Clone, Copy)]
pub struct TrackerRule {
    pub clocks: ClockUse,
    pub matches: bool,
    pub lost: LostUse,
    pub acknowledges: AcknowledgeUse,
    pub report: TrackerReport,
}

// The joined calls, in the order of their codes.
#[derive(Clone, Copy, Debug, PartialEq, Eq)]
pub enum JoinedCall {
    Admit,
    Lapse,
    Part,
    Depart,
}

// A sheet's fields as they stand, used or not. Numbers with a sign are given by their bits.
#[derive(Clone, Copy)]
pub struct Sheet {
    pub key: Guid,
    pub guid: Guid,
    pub handle: InstanceHandle,
    pub time_1: MaybeTime,
    pub time_2: MaybeTime,
    pub a: u64,
    pub b: u64,
    pub first: u32,
    pub second: u32,
    pub deadline_present: bool,
    pub lease_present: bool,
    pub manual: bool,
    pub by_source: bool,
    pub kind: u8,
    pub code: u8,
    pub holder: Holder,
}

// What the SampleInfo of an admitted sample takes from its instance.
#[derive(Clone, Copy)]
pub struct SampleInfo {
    pub view_new: bool,
    pub kind: InstanceStateKind,
    pub disposed_generations: u32,
    pub no_writers_generations: u32,
}

#[derive(Clone, Copy, Debug, PartialEq, Eq)]
pub struct LivelinessChangedStatus {
    pub alive_count: u32,
    pub not_alive_count: u32,
    pub alive_count_change: i32,
    pub not_alive_count_change: i32,
    pub last_publication_handle: InstanceHandle,
}

// When the next lease runs out, where one does.
#[derive(Clone, Copy)]
pub struct MaybeDue {
    pub present: bool,
    pub at: u64,
}

// What a call answers: the number of its refusal, or 0 and what the call has to say. All else is 0.
#[derive(Clone, Copy)]
pub struct Answer {
    pub number: u8,
    pub outcome: u8,
    pub yes: bool,
    pub present: bool,
    pub handle: InstanceHandle,
    pub samples: u32,
    pub info: SampleInfo,
    pub count: u32,
    pub listed: u32,
    pub next_due: MaybeDue,
    pub status: LivelinessChangedStatus,
}

// What a call leaves by value.
#[derive(Clone, Copy)]
pub struct Called {
    pub answer: Answer,
    pub head: Head,
}

// The allocator's step: the handle given and the counter after it.
#[derive(Clone, Copy)]
pub struct Allocated {
    pub handle: InstanceHandle,
    pub counter: u64,
}

// The answers of the reads; a refusal carries its number.
#[derive(Clone, Copy, Debug, PartialEq, Eq)]
pub enum Decision {
    Refused(u8),
    Is(bool),
}

#[derive(Clone, Copy, Debug, PartialEq, Eq)]
pub enum FoundHandle {
    Refused(u8),
    Missing,
    Is(InstanceHandle),
}

#[derive(Clone, Copy, Debug, PartialEq, Eq)]
pub enum FoundTime {
    Refused(u8),
    Missing,
    Is(Time),
}

#[derive(Clone, Copy, Debug, PartialEq, Eq)]
pub enum Listing {
    Refused(u8),
    Listed(u32),
}

#[derive(Clone, Copy, Debug, PartialEq, Eq)]
pub enum StatusRead {
    Refused(u8),
    Is(LivelinessChangedStatus),
}

#[derive(Clone, Copy, Debug, PartialEq, Eq)]
pub enum ChangesRead {
    Refused(u8),
    Is(u64),
}
