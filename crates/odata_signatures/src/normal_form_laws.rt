//! What the normal form of a tree, and so its canonical text, keeps of it.
ghost use Rattle.std.specs.Prelude.{◌≡◌, ◌↔◌, ℕ, List};
ghost use Rattle.edm_values.specs.Val.{Val};
ghost use Rattle.odata_text.specs.LiteralSpelling.{IsLiteralSpelling};
ghost use Rattle.odata_syntax.specs.CanonicalText.{IsCanonicalText};
ghost use Rattle.odata_syntax.specs.NormalForm.{IsNormalForm, bare, literal_token};
ghost use Rattle.odata_syntax.specs.Parse.{IsExpression};
ghost use Rattle.odata_syntax.specs.Tree.{Tree};
ghost use Rattle.odata_syntax.specs.declared.node.LiteralKind.{LiteralKind};
ghost use Rattle.csdl_schema.specs.ExprType.{ExprType};
ghost use Rattle.csdl_schema.specs.SchemaModel.{Slots};
ghost use Rattle.odata_signatures.specs.HasTyping.{HasTree, HasTyping};
ghost use Rattle.odata_signatures.specs.LiteralValue.{LiteralValue};
ghost use Rattle.odata_signatures.specs.PreOrder.{pre_order};
ghost use Rattle.odata_signatures.specs.SamePaths.{CanonicalTextsNeedSamePaths, NormalFormsNeedSamePaths};
ghost use Rattle.odata_signatures.specs.SamePaths.{PlacesNeedNoPaths};
ghost use Rattle.odata_signatures.specs.SameTypes.{HaveSameTypesByNumber};
ghost use Rattle.odata_signatures.specs.Sides.{quoted_text};
ghost use Rattle.odata_signatures.specs.Typed.{Scope, Typed};

use edm_values::{guids_read_back, ints_read_back, moments_read_back, texts_have_one_value};
use odata_syntax::{canonical_texts_read_back, one_tree};
use odata_text::{one_list_of_any_length, tokens_are_spelled};

/// A law: a literal's canonical spelling stands for the value of the literal. A tree's normal form and the tree without
/// its positions have the types of the tree, node by node too, and quote what it quotes.
pub fn normal_forms_keep_types()
    ensures values { (slots : Slots) (kind : LiteralKind) (text spelling : List ℕ) (v : Val)
        → IsLiteralSpelling (literal_token kind) text spelling
        → LiteralValue slots kind text v ↔ LiteralValue slots kind spelling v }
    ensures types { (slots : Slots) (root : List ℕ) (scope : Scope) (tree normal : Tree) (type : ExprType)
        → IsNormalForm tree normal
        → Typed slots root scope tree type ↔ Typed slots root scope normal type }
    ensures places { (slots : Slots) (root : List ℕ) (scope : Scope) (tree : Tree) (type : ExprType)
        → Typed slots root scope tree type ↔ Typed slots root scope (bare tree) type }
    ensures nodes { (slots : Slots) (root : List ℕ) (tree normal : Tree) → IsNormalForm tree normal
        → HaveSameTypesByNumber slots root (pre_order tree) (pre_order normal) }
    ensures nodes_bare { (slots : Slots) (root : List ℕ) (tree : Tree)
        → HaveSameTypesByNumber slots root (pre_order tree) (pre_order (bare tree)) }
    ensures quotes { (tree normal : Tree) → IsNormalForm tree normal → quoted_text tree ≡ quoted_text normal }
    ensures quotes_bare { (tree : Tree) → quoted_text tree ≡ quoted_text (bare tree) }
{
    texts_have_one_value();
    ints_read_back();
    moments_read_back();
    guids_read_back();
}

/// A law: the tree of a canonical text has the types of the expression, node by node. It is its normal form but for
/// positions. The canonical text of a text's tree is a filter exactly if the text is one.
pub fn canonical_texts_keep_types()
    ensures nodes { (slots : Slots) (root printed : List ℕ) (tree again : Tree)
        → IsExpression tree → IsCanonicalText tree printed → HasTree printed again
        → HaveSameTypesByNumber slots root (pre_order tree) (pre_order again) }
    ensures form { (printed : List ℕ) (tree again : Tree) (canonical : IsCanonicalText tree printed)
        → IsExpression tree → HasTree printed again → bare again ≡ bare canonical.normal }
    ensures filters { (slots : Slots) (root text printed : List ℕ) (tree again : Tree)
        → HasTree text tree → IsCanonicalText tree printed → HasTree printed again
        → HasTyping slots root text tree ↔ HasTyping slots root printed again }
{
    texts_have_one_value();
    ints_read_back();
    moments_read_back();
    guids_read_back();
    canonical_texts_read_back();
    one_list_of_any_length();
    tokens_are_spelled();
    one_tree();
}

/// A law: the tree of a canonical text needs the paths that the expression needs, and no others. So do a tree's normal
/// form and the tree without its positions.
pub fn canonical_texts_need_the_same()
    ensures normal { NormalFormsNeedSamePaths }
    ensures places { PlacesNeedNoPaths }
    ensures printed { CanonicalTextsNeedSamePaths }
{
    texts_have_one_value();
    ints_read_back();
    moments_read_back();
    guids_read_back();
    canonical_texts_read_back();
    one_list_of_any_length();
    tokens_are_spelled();
    one_tree();
}
