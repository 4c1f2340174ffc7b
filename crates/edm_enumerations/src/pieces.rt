//! Pieces of a text that spells a value.
ghost use Rattle.std.specs.Prelude.{◌≡◌, ℤ, IfSome};
ghost use Rattle.edm_values.specs.IntLiteral.{IntValue};
ghost use Rattle.edm_values.specs.NumberTypes.{IsNumberOf};
ghost use Rattle.edm_enumerations.specs.Spaces.{without_outer_spaces};

use edm_values::{Prim, read_int};

/// A piece without the spaces round it.
pub(crate) fn without_outer_spaces(piece: &str) -> &str
    ensures { result.now ≡ without_outer_spaces piece.now }
{
    piece.trim_start_matches(' ').trim_end_matches(' ')
}

/// The number of an Int spelling, if it lies within the type.
pub(crate) fn spelled_number(piece: &str, within: Prim) -> Option<i64>
    ensures value { IfSome result (λ n. IntValue piece.now n × IsNumberOf within n) }
    ensures only { (n : ℤ) → IntValue piece.now n → IsNumberOf within n → result ≡ Some n }
{
    match read_int(piece) {
        Some(number) => {
            if within.holds_number(number) {
                Some(number)
            } else {
                None
            }
        }
        None => None,
    }
}
