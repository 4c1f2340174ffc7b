//! What a call reports besides its status, as the header declares it.
ghost use Rattle.std.specs.Prelude.{◌≡◌};
ghost use Rattle.call_handles.specs.Answers.{empty_answer};

/// What a call reports besides its status. Fields that the call does not set are 0.
#[repr(C)]
#[derive(Drop)]
pub struct Answer {
    pub fault: u32,
    pub verdict: u32,
    pub start: usize,
    pub stop: usize,
    pub number: u64,
    pub length: usize,
    pub first: usize,
    pub rows: u64,
    pub kept: u64,
    pub piece_start: usize,
    pub piece_stop: usize,
    pub value_start: usize,
    pub value_stop: usize,
}

impl Answer {
    /// An answer that reports nothing.
    pub fn empty() -> Answer
        ensures { result ≡ empty_answer }
    {
        Answer {
            fault: 0,
            verdict: 0,
            start: 0,
            stop: 0,
            number: 0,
            length: 0,
            first: 0,
            rows: 0,
            kept: 0,
            piece_start: 0,
            piece_stop: 0,
            value_start: 0,
            value_stop: 0,
        }
    }
}
