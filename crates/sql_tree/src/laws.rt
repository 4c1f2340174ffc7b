//! A law, as the contract of a function that does nothing.
ghost use Rattle.std.specs.Prelude.{ℕ, List};
ghost use Rattle.csdl_schema.specs.Document.{StandsFor};
ghost use Rattle.sql_tree.specs.BalancedTexts.{AreTextsBalanced};
ghost use Rattle.sql_tree.specs.Parentheses.{AreNamesPlain};
ghost use Rattle.sql_tree.specs.TableModel.{TableModel};

/// A law: in the text of a tree each parenthesis that is opened is closed, and none other.
/// Each quote is ended. So it is over the schema of any document: no name of its properties and members has a quote.
pub fn texts_are_balanced()
    ensures texts { AreTextsBalanced }
    ensures names { (document : List ℕ) (table : TableModel)
        → StandsFor document table.schema → AreNamesPlain table }
{}
