//! What a parser and a printer of filters rest on: tokens apart from their text, and texts of any length.

ghost use Rattle.std.specs.Prelude.{◌≡◌, ℕ, ◌<◌, true, List, length};
ghost use Rattle.std.specs.Char.{is_ascii_alphabetic};
ghost use Rattle.std.specs.List.{list_all};
ghost use Rattle.std.specs.Str.{str_to_ascii_lowercase};
ghost use Rattle.odata_text.specs.Identifier.{IsIdentifier};
ghost use Rattle.odata_text.specs.LiteralSpelling.{IsLiteralSpelling};
ghost use Rattle.odata_text.specs.Spelling.{IsWordSpelling, Spells};
ghost use Rattle.odata_text.specs.declared.token.TokenKind.{TokenKind};
ghost use Rattle.odata_text.specs.TokenModel.{TokenModel};
ghost use Rattle.odata_text.specs.TokenSequence.{AreTextTokens, AreTokensOf};
ghost use Rattle.odata_text.specs.Printing.{ArePrintable, Print, print_tokens, print_text};
ghost use Rattle.odata_text.specs.Tokens.{IsTokenList};

use edm_values::{guids_read_back, ints_read_back, moments_read_back, texts_have_one_value};

/// The tokens of a text are spelled by their kinds, in order and within the text.
pub fn tokens_are_spelled()
    ensures { (text : List ℕ) (list : List TokenModel)
        → IsTokenList text list → AreTextTokens 0 (length text) list }
{}

/// A text has at most one token list, however long it is.
pub fn one_list_of_any_length()
    ensures { (text : List ℕ) (first second : List TokenModel)
        → AreTokensOf text first → AreTokensOf text second → first ≡ second }
{}

/// Tokens that are printed one after another are those of what was printed, however many they are.
pub fn printed_list_of_any_length()
    ensures { (prints : List Print) → ArePrintable prints
        → AreTokensOf (print_text prints) (print_tokens 0 prints) }
{}

/// A literal has at most one canonical spelling, which is spelled as it is and is canonical itself.
pub fn literals_have_one_spelling()
    ensures one { (kind : TokenKind) (text first second : List ℕ)
        → IsLiteralSpelling kind text first → IsLiteralSpelling kind text second → first ≡ second }
    ensures spelled { (kind : TokenKind) (text spelling : List ℕ)
        → Spells kind text → IsLiteralSpelling kind text spelling → Spells kind spelling }
    ensures again { (kind : TokenKind) (text spelling : List ℕ)
        → IsLiteralSpelling kind text spelling → IsLiteralSpelling kind spelling spelling }
{
    texts_have_one_value();
    ints_read_back();
    moments_read_back();
    guids_read_back();
}

/// A word in lower case is a word.
pub fn words_in_lower_case()
    ensures { (word : List ℕ) → IsWordSpelling word → IsWordSpelling (str_to_ascii_lowercase word) }
{}

/// ASCII letters, one or more, are an identifier.
pub fn letters_are_an_identifier()
    ensures { (name : List ℕ) → 0 < length name → list_all is_ascii_alphabetic name ≡ true → IsIdentifier name }
{}
