// What the reads answer, as the scope document's number and values: what each case of their enums says stands in
// specs/Cases. No function stands here.
#![tactic(auto)]

// Number and values, in the order of the answer's 24 bytes; what is not answered is 0. `said` is 0 for no and 1 for yes, or the case
// of an answer that has more; `sec` is by its bits.
#[derive(Clone, Copy)]
pub struct ReadAnswer {
    pub number: u8,
    pub said: u8,
    pub present: bool,
    pub stored: bool,
    pub size: u32,
    pub value: u64,
    pub sec: u32,
    pub nanosec: u32,
}
