//! Verdicts of items that are known before a run over them.
ghost use Rattle.std.specs.Prelude.{◌≡◌};
ghost use Rattle.row_judges.specs.RowJudgment.{judgment_where};

use line_filter::{JudgeItem, Judgment};
use row_judges::BadRow;
use std::alloc::AllocError;

/// Says of an item what was found of it before.
#[derive(Drop)]
pub(crate) struct KnownVerdicts;

impl JudgeItem for KnownVerdicts {
    type Item = bool;

    type Fault = BadRow;

    ghost says = { λ judge kept judgment. judgment ≡ judgment_where kept };

    fn judge_item(&self, item: &bool) -> Result<Judgment<BadRow>, AllocError> {
        if *item {
            Ok(Judgment::Kept)
        } else {
            Ok(Judgment::LeftOut)
        }
    }
}
