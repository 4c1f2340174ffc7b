//! What the crates below guarantee together, as the contract of a function that does nothing but cite laws.
ghost use Rattle.odata_filter.specs.CanonicalRows.{HaveSameEntities, HaveSameOutcomes, KeepSameItems, KeepSameLines};
ghost use Rattle.odata_filter.specs.CanonicalRows.{OfBoth, SaySameOfRows, SaySameOfValues, StopAlike};
ghost use Rattle.odata_filter.specs.CanonicalRows.{StopCollectionsAlike, AnswerRowsAlike};
ghost use Rattle.odata_filter.specs.Headline.{HaveOneOutcome, AreAnswered, KeepTrueRows};
ghost use Rattle.odata_filter.specs.Headline.{WriteTrueRows, StopAtFaults, AreRefusedOnce};

use edm_entities::what_fits_has_its_type;
use odata_checked_filter::canonical_texts_keep_filters;
use odata_meaning::{canonical_texts_keep_outcomes, typed_trees_end_once};
use odata_text::tokens_are_spelled;
use odata_typing::texts_have_one_refusal;
use row_judges::rows_are_judged_once;

/// The headline. A filter that `check` accepts for an entity type has exactly one outcome on every entity of that type,
/// at every moment: true, false, null, overflow or division by zero. `evaluate` returns it; `filter_lines` writes just
/// the rows on which it is true, in order, up to the first line at fault. A text that `check` refuses has no typing,
/// and its span and reason are those of its one first fault.
pub fn filters_keep_what_is_true()
    ensures outcome { HaveOneOutcome }
    ensures answered { AreAnswered }
    ensures kept { KeepTrueRows }
    ensures written { WriteTrueRows }
    ensures stopped { StopAtFaults }
    ensures refused { AreRefusedOnce }
{
    typed_trees_end_once();
    what_fits_has_its_type();
    rows_are_judged_once();
    texts_have_one_refusal();
}

/// The filter of a canonical text keeps what the filter keeps. It is what `check` accepts for that text: it has the
/// same outcomes, judges each row alike, and keeps the same lines of every input and the same items of every
/// collection, or stops alike. An entity that is expanded for the one is expanded for the other.
pub fn canonical_texts_keep_rows()
    ensures entities { OfBoth HaveSameEntities }
    ensures outcomes { OfBoth HaveSameOutcomes }
    ensures rows { OfBoth SaySameOfRows }
    ensures values { OfBoth SaySameOfValues }
    ensures answers { OfBoth AnswerRowsAlike }
    ensures lines { OfBoth KeepSameLines }
    ensures stops { OfBoth StopAlike }
    ensures items { OfBoth KeepSameItems }
    ensures collections { OfBoth StopCollectionsAlike }
{
    tokens_are_spelled();
    canonical_texts_keep_filters();
    canonical_texts_keep_outcomes();
}
