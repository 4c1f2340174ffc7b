//! What canonical texts and normal forms say of each other.

ghost use Rattle.std.specs.Prelude.{◌≡◌, ◌↔◌, ℕ, List};
ghost use Rattle.odata_syntax.specs.CanonicalText.{IsCanonicalText};
ghost use Rattle.odata_syntax.specs.NormalForm.{IsNormalForm, bare};
ghost use Rattle.odata_syntax.specs.Parse.{IsExpression};
ghost use Rattle.odata_syntax.specs.ReadBack.{IsReadBack};
ghost use Rattle.odata_syntax.specs.Tree.{Tree};

use crate::one_tree;
use odata_text::{
    letters_are_an_identifier, literals_have_one_spelling, one_list_of_any_length,
    printed_list_of_any_length, words_in_lower_case,
};

/// A tree has at most one normal form and one canonical text, and a normal form is its own.
pub fn one_canonical_text()
    ensures normal { (tree first second : Tree)
        → IsNormalForm tree first → IsNormalForm tree second → first ≡ second }
    ensures text { (tree : Tree) (first second : List ℕ)
        → IsCanonicalText tree first → IsCanonicalText tree second → first ≡ second }
    ensures again { (tree normal : Tree) → IsNormalForm tree normal → IsNormalForm normal normal }
    ensures expression { (tree normal : Tree)
        → IsExpression tree → IsNormalForm tree normal → IsExpression normal }
{
    literals_have_one_spelling();
}

/// A canonical text is read back as the normal form, and that is printed as the same text.
pub fn canonical_texts_read_back()
    ensures { (tree : Tree) (text : List ℕ)
        → IsExpression tree → IsCanonicalText tree text → IsReadBack tree text }
{
    literals_have_one_spelling();
    words_in_lower_case();
    letters_are_an_identifier();
    printed_list_of_any_length();
    one_list_of_any_length();
}

/// Two expressions have one canonical text exactly if their normal forms are one but for positions.
pub fn texts_determine_normal_forms()
    ensures { (a b m n : Tree) (s t : List ℕ) → IsExpression a → IsExpression b
        → IsCanonicalText a s → IsCanonicalText b t → IsNormalForm a m → IsNormalForm b n
        → (s ≡ t) ↔ (bare m ≡ bare n) }
{
    literals_have_one_spelling();
    words_in_lower_case();
    letters_are_an_identifier();
    printed_list_of_any_length();
    one_list_of_any_length();
    one_tree();
}
