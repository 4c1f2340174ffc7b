//! The memory in which escapes are decoded.
use std::alloc::Global;

/// The memory in which escapes are decoded. Nothing is allocated for it before the first text that has any.
#[derive(Drop)]
pub struct DecodeBuffer {
    alloc: Global,
    pub(crate) reported: String,
    /// What `json`'s reader needs. It is allocated for the first text with surrogates.
    of_json: Vec<json::Scratch>,
}

impl DecodeBuffer {
    /// Creates a buffer for which nothing is allocated yet. It has no clause: no answer depends on what a buffer holds.
    #[inline(always)]
    pub fn new(alloc: Global) -> DecodeBuffer {
        DecodeBuffer {
            alloc,
            reported: String::new(alloc),
            of_json: Vec::new(alloc),
        }
    }

    /// Allocates the memory of `json`'s reader, unless out of memory. A frame of its own has what is copied there.
    #[inline(never)]
    fn allocate(&mut self) {
        let _ = self.of_json.push(json::Scratch::new(self.alloc));
    }

    /// Returns the memory of `json`'s reader, unless it was allocated in vain.
    pub(crate) fn of_json(&mut self) -> Option<&mut json::Scratch> {
        if self.of_json.len() == 0 {
            self.allocate();
        }
        if self.of_json.len() > 0 {
            Some(&mut self.of_json[0])
        } else {
            None
        }
    }
}
