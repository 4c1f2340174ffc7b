//! What nodes evaluate to, and where SQL agrees. Each law is the contract of a function that does nothing but cite
//! others.
ghost use Rattle.sql_outcomes.specs.NodesGo.{CalculationsGo, CallsGo, ComparisonsGo, ConnectivesGo, FlagsGo, LambdasGo};
ghost use Rattle.sql_outcomes.specs.NodesGo.{ListsGo, NegationsGo, PathsGo};
ghost use Rattle.sql_outcomes.specs.SqlAgrees.{BothFalse, BothTrue, ChainsRegroup, ConnectedIs, CountsAgree};
ghost use Rattle.sql_outcomes.specs.SqlAgrees.{EnoughCompare, OneFalse, OneTrue, OppositesDiffer};

use edm_entities::what_fits_has_its_type;
use odata_functions::comparisons_are_decided;
use odata_meaning::typed_trees_end_once_on_entities;
use odata_ranges::entities_are_kept;
use odata_signatures::{calls_have_one_type, quoted_texts_have_one_number, trees_have_one_type};

/// A law: a node of a checked filter evaluates to what its form makes of its operands' outcomes. That is on every row of
/// which the filter is asked, whatever the range variables around the node hold: a fault on the left comes first.
pub fn nodes_go_by_operands()
    ensures comparisons { ComparisonsGo }
    ensures connectives { ConnectivesGo }
    ensures negations { NegationsGo }
    ensures calculations { CalculationsGo }
    ensures flags { FlagsGo }
    ensures lists { ListsGo }
    ensures paths { PathsGo }
    ensures lambdas { LambdasGo }
    ensures calls { CallsGo }
{
    typed_trees_end_once_on_entities();
    trees_have_one_type();
    calls_have_one_type();
    quoted_texts_have_one_number();
    comparisons_are_decided();
    what_fits_has_its_type();
    entities_are_kept();
}

/// A law: chains of `and` and of `or` may be grouped anew. In their stead conditions of SQL may be joined, each true exactly
/// where its term is true, or false.
pub fn connectives_agree()
    ensures are { ConnectedIs }
    ensures regroup { ChainsRegroup }
    ensures both_true { BothTrue }
    ensures both_false { BothFalse }
    ensures one_true { OneTrue }
    ensures one_false { OneFalse }
{}

/// A law: SQL compares values that are not null as the filter does. Where a null makes the comparison of the filter
/// untrue it may stand beside them.
pub fn comparisons_agree()
    ensures enough { EnoughCompare }
    ensures opposite { OppositesDiffer }
{}

/// A law: SQL counts the characters of texts as the filter does. It does not bound the number.
pub fn counts_agree()
    ensures { CountsAgree }
{}
