//! What to say of a fault, and what to write instead.
use crate::edit::Edit;
use std::alloc::{AllocError, Global};

/// Words about a fault, and edits. The edits are those of the filter that the words suggest, the likeliest first.
#[derive(Drop)]
pub struct Hint {
    pub text: String,
    pub edits: Vec<Edit>,
}

impl Hint {
    /// Words that suggest no edit.
    pub(crate) fn plain(alloc: Global, text: String) -> Hint {
        Hint {
            text,
            edits: Vec::new(alloc),
        }
    }

    /// Words that suggest one.
    pub(crate) fn with_edit(alloc: Global, text: String, edit: Edit) -> Result<Hint, AllocError> {
        let mut edits = Vec::new(alloc);
        edits.push(edit)?;
        Ok(Hint { text, edits })
    }
}
