//! What the definitions of tokens and faults say of every text, and of two texts.

ghost use Rattle.std.specs.Prelude.{◌≡◌, ◌≤◌, ℕ, List, length};
ghost use Rattle.odata_text.specs.TokenModel.{TokenModel};
ghost use Rattle.odata_text.specs.Printing.{ArePrintable, Print, print_tokens, print_text};
ghost use Rattle.odata_text.specs.TokenExamples.{enumeration_filter, enumeration_tokens, fraction_filter};
ghost use Rattle.odata_text.specs.TokenExamples.{guid_filter, guid_tokens, moment_filter, moment_tokens};
ghost use Rattle.odata_text.specs.TokenExamples.{plain_filter, plain_tokens, run_on_filter};
ghost use Rattle.odata_text.specs.Tokens.{IsTextFault, IsTokenList, text_limit, token_limit};
ghost use Rattle.odata_text.specs.declared.text_fault.TextFault.{TextFault};

/// A text has at most one first fault or token list, and never both.
pub fn one_reading()
    ensures fault { (text : List ℕ) (first second : TextFault)
        → IsTextFault text first → IsTextFault text second → first ≡ second }
    ensures list { (text : List ℕ) (first second : List TokenModel)
        → IsTokenList text first → IsTokenList text second → first ≡ second }
    ensures not_both { (text : List ℕ) (fault : TextFault) (list : List TokenModel)
        → IsTextFault text fault → IsTokenList text list → ⊥ }
{}

/// Worked texts with their tokens. `Active and ID eq 1 and Name eq 'a'`, `Changed gt 2020-01-01T00:00Z`, `ID eq
/// 1234567e-1234-1234-1234-123456789012` and `a.b'x'` have their tokens; `1.5`, a literal that is left out, and `1st`,
/// a number that runs on up to its third byte, have none.
pub fn texts_by_example()
    ensures plain { IsTokenList plain_filter plain_tokens }
    ensures moment { IsTokenList moment_filter moment_tokens }
    ensures guid { IsTokenList guid_filter guid_tokens }
    ensures enumeration { IsTokenList enumeration_filter enumeration_tokens }
    ensures fraction { IsTextFault fraction_filter (TextFault.LeftOutLiteral (record { start = 0; stop = 3 })) }
    ensures no_fraction { (list : List TokenModel) → IsTokenList fraction_filter list → ⊥ }
    ensures run_on { IsTextFault run_on_filter (TextFault.RunOn (record { start = 0; stop = 3 })) }
    ensures no_run_on { (list : List TokenModel) → IsTokenList run_on_filter list → ⊥ }
{}

/// Tokens that are printed one after another are the tokens of what was printed.
pub fn printed_reading()
    ensures { (prints : List Print) → ArePrintable prints
        → length (print_text prints) ≤ text_limit → length prints ≤ token_limit
        → IsTokenList (print_text prints) (print_tokens 0 prints) }
{}
