//! Laws of the grammar (OData URL Conventions 4.01, section 5.1.1). Each function is one; its body is empty.
ghost use Rattle.std.specs.Prelude.{◌≡◌, ◌<◌, ◌≤◌, ◌+◌, ◌⊎◌, ℕ, true, List, ◌∷◌, ◌++◌, Contains};
ghost use Rattle.odata_syntax.specs.declared.syntax_fault.SyntaxFault.{SyntaxFault};
ghost use Rattle.odata_text.specs.TokenModel.{TokenModel};
ghost use Rattle.odata_text.specs.declared.span.Span.{Span};
ghost use Rattle.odata_syntax.specs.Tree.{Tree, shape_of, start_of, stop_of};
ghost use Rattle.odata_syntax.specs.Grammar.{Level, or_level, Derives};
ghost use Rattle.odata_syntax.specs.Front.{close_count, depth_limit, open_count, opens};
ghost use Rattle.odata_syntax.specs.Parse.{HasNoParse, IsExpression, IsFirstDeep, IsParse, IsSyntaxFault, IsUnended};
ghost use Rattle.odata_syntax.specs.Spans.{HoldsSpan, IsSpanned, IsSpannedWithin, IsWithin, SharesNoByte, children_of};
ghost use Rattle.odata_syntax.specs.FirstRun.{first_run_tokens, first_run_tree, name_eq};

/// Tokens are at most one expression.
pub fn one_tree()
    ensures { (ts : List TokenModel) (tree other : Tree)
        → Derives or_level ts tree → Derives or_level ts other → tree ≡ other }
{}

/// The span of a tree runs from its first to its last token, at each level.
pub fn tree_spans()
    ensures { (level : Level) (ts : List TokenModel) (tree : Tree) → Derives level ts tree → IsSpanned ts tree }
{}

/// The span of each node runs from its first to its last token: its tokens stand side by side.
pub fn node_spans()
    ensures { (ts : List TokenModel) (tree part : Tree)
        → Derives or_level ts tree → IsWithin part tree → IsSpannedWithin ts part }
{}

/// The span of a node holds those of its descendants.
pub fn spans_hold()
    ensures { (tree outer inner : Tree)
        → IsExpression tree → IsWithin outer tree → IsWithin inner outer → HoldsSpan outer inner }
{}

/// One of two nodes of an expression is a descendant of the other, or they share no byte.
pub fn spans_apart()
    ensures { (tree node other : Tree) → IsExpression tree → IsWithin node tree → IsWithin other tree
        → ¬ IsWithin node other → ¬ IsWithin other node → SharesNoByte node other }
{}

/// Two children of a node are one tree, or they share no byte; each stops before the next ones start.
pub fn children_apart()
    ensures apart { (tree node child other : Tree) → IsExpression tree → IsWithin node tree
        → Contains (children_of (shape_of node)) child → Contains (children_of (shape_of node)) other
        → (child ≡ other) ⊎ SharesNoByte child other }
    ensures order { (tree node child other : Tree) (before after : List Tree) → IsExpression tree → IsWithin node tree
        → children_of (shape_of node) ≡ before ++ (child ∷ after) → Contains after other
        → stop_of child ≤ start_of other }
{}

/// Each node of an expression takes a byte or more.
pub fn spans_take_bytes()
    ensures { (tree node : Tree) → IsExpression tree → IsWithin node tree → start_of node < stop_of node }
{}

/// Tokens have at most one fault.
pub fn one_fault()
    ensures { (ts : List TokenModel) (len : ℕ) (fault other : SyntaxFault)
        → IsSyntaxFault ts len fault → IsSyntaxFault ts len other → fault ≡ other }
{}

/// Tokens with a fault are no expression.
pub fn faults_have_no_tree()
    ensures { (ts : List TokenModel) (len : ℕ) (fault : SyntaxFault) → IsSyntaxFault ts len fault → HasNoParse ts }
{}

/// A token that is too deep is a `(`, and as many are open before it as may be.
pub fn too_deep_opens()
    ensures { (ts : List TokenModel) (span : Span) (fault : IsFirstDeep ts span)
        → (opens fault.token.kind ≡ true)
        × (open_count fault.before ≡ close_count fault.before + depth_limit) }
{}

/// `Active and ID eq 1 and Name eq 'a'` is the `and` of an `and` and an `eq`.
pub fn first_run_parses()
    ensures { IsParse first_run_tokens first_run_tree }
{}

/// `Name eq` begins an expression and is none: the fault is the empty span after it.
pub fn name_eq_is_unended()
    ensures { IsUnended name_eq 7 (record { start = 7; stop = 7 }) }
{}
