ghost use Rattle.std.specs.Prelude.{◌≡◌, List, [], None, Some, length, slice_get, IfOk, IfErr};
ghost use Rattle.csdl_schema.specs.SchemaModel.{HoldsType, slots_of, type_name_at};
ghost use Rattle.odata_signatures.specs.ExprTypes.{IsBooleanOrNull};
ghost use Rattle.odata_signatures.specs.TypeView.{expr_type};
ghost use Rattle.odata_checked_filter.specs.Filter.{HasNeededPaths, IsFilter, filter_in, tree_of_filter};
ghost use Rattle.odata_checked_filter.specs.FlatTree.{tree_of_nodes};
ghost use Rattle.odata_signatures.specs.HasTyping.{HasNoTyping, HasTyping, IsRefusal, UnlessMemory};
ghost use Rattle.odata_typing.specs.private.Answer.{IsTypeRefusal, refusal_of};
ghost use Rattle.odata_typing.specs.private.Judging.{IsStanding};
ghost use Rattle.odata_typing.specs.private.CheckContexts.{IsReady, IsContext, whole_tree};
ghost use Rattle.odata_typing.specs.private.Variables.{scope_of};
ghost use Rattle.odata_typing.specs.private.Checker.{IsRefusedFor, IsWalked};

use super::check_context::CheckContext;
use super::judged_list::Walk;
use super::laws_below::laws_below;
use super::node_walk::checked_nodes;
use super::variables::Variables;
use csdl_schema::{Expansion, Schema, TypeId};
use odata_checked_filter::{
    Checked, CheckedNode, StoredFilter, a_list_stands_for_one_tree, expansion_of,
};
use odata_signatures::{Refusal, TypeFault, TypeFaultCode, texts_have_few_nodes};
use odata_syntax::{SyntaxFault, TextOrSyntaxFault, parse_text};
use odata_text::{Span, TextFault, tokens_are_spelled};
use std::alloc::{AllocError, Global};

/// Checks a text as a filter of the entities of a type, which the schema holds.
///
/// The text is judged in four steps: its tokens, its tree, the types of its nodes, and last that the whole is true,
/// false or null. A refusal other than `Memory` is that of the first step that fails. A type fault is that of the
/// leftmost node to blame.
pub fn check<'s>(
    alloc: Global,
    schema: &'s Schema,
    filtered_type: TypeId,
    text: &str,
) -> Result<Checked<'s>, Refusal>
    requires { HoldsType schema.now filtered_type }
    ensures typing { IfOk result (λ c. HasTyping (slots_of c.schema) (type_name_at c.schema c.filtered)
        text.now (tree_of_filter c)) }
    ensures schema { IfOk result (λ c. c.schema ≡ schema.entry.now) }
    ensures filtered_type { IfOk result (λ c. c.filtered ≡ filtered_type) }
    ensures expansion { IfOk result (λ c. HasNeededPaths c.schema c.filtered c.list c.expansion) }
    ensures refusal { IfErr result (λ r. UnlessMemory r
        (IsRefusal (slots_of schema.entry.now) (type_name_at schema.entry.now filtered_type) text.now r)) }
    ensures none { IfErr result (λ r. UnlessMemory r
        (HasNoTyping (slots_of schema.entry.now) (type_name_at schema.entry.now filtered_type) text.now)) }
{
    let mut walk = Walk::new(alloc);
    walk_text(alloc, schema, filtered_type, text, &mut walk)?;
    match expansion_for(alloc, schema, filtered_type, &walk) {
        Ok(expansion) => Ok(Checked::new(schema, filtered_type, walk.list, expansion)),
        Err(_) => Err(Refusal::Memory),
    }
}

/// Checks a text as [`check`] does, apart from the schema. It is for callers that store both and combine them again.
pub fn check_to_store(
    alloc: Global,
    schema: &Schema,
    filtered_type: TypeId,
    text: &str,
) -> Result<StoredFilter, Refusal>
    requires { HoldsType schema.now filtered_type }
    ensures filter { IfOk result (λ stored. IsFilter (filter_in schema.now stored)) }
    ensures typing { IfOk result (λ stored. HasTyping (slots_of schema.now) (type_name_at schema.now filtered_type)
        text.now (tree_of_nodes stored.list)) }
    ensures filtered_type { IfOk result (λ stored. stored.filtered ≡ filtered_type) }
    ensures refusal { IfErr result (λ r. UnlessMemory r
        (IsRefusal (slots_of schema.now) (type_name_at schema.now filtered_type) text.now r)) }
    ensures none { IfErr result (λ r. UnlessMemory r
        (HasNoTyping (slots_of schema.now) (type_name_at schema.now filtered_type) text.now)) }
{
    let mut walk = Walk::new(alloc);
    walk_text(alloc, schema, filtered_type, text, &mut walk)?;
    match expansion_for(alloc, schema, filtered_type, &walk) {
        Ok(expansion) => Ok(StoredFilter::new(filtered_type, walk.list, expansion)),
        Err(_) => Err(Refusal::Memory),
    }
}

/// What the list of a walk needs of navigation.
#[inline(always)]
fn expansion_for(
    alloc: Global,
    schema: &Schema,
    filtered_type: TypeId,
    walk: &Walk,
) -> Result<Expansion, AllocError>
    requires { IsWalked schema.now filtered_type walk.now }
    ensures { IfOk result (HasNeededPaths schema.now filtered_type walk.now.list) }
{
    if walk.navigates {
        expansion_of(alloc, schema, filtered_type, &walk.list)
    } else {
        Ok(Expansion::none(alloc))
    }
}

/// The walk over a text's nodes, which fills the list.
fn walk_text(
    alloc: Global,
    schema: &Schema,
    filtered_type: TypeId,
    text: &str,
    walk: &mut Walk,
) -> Result<(), Refusal>
    requires held { HoldsType schema.now filtered_type }
    requires fresh { walk.old.fault ≡ None }
    ensures walked { IfOk result (λ _. IsWalked schema.now filtered_type walk.new) }
    ensures typing { IfOk result (λ _. HasTyping (slots_of schema.now) (type_name_at schema.now filtered_type)
        text.now (tree_of_nodes walk.new.list)) }
    ensures refused { IfErr result (IsRefusedFor schema.now filtered_type text.now) }
{
    laws_below();
    a_list_stands_for_one_tree();
    texts_have_few_nodes();
    tokens_are_spelled();
    let syntax = match parse_text(alloc, text) {
        Ok(syntax) => syntax,
        Err(fault) => return Err(refusal_of(fault)),
    };
    let nodes = syntax.nodes();
    match walk.list.make_room(alloc, text, nodes.len()) {
        Ok(()) => {}
        Err(_) => return Err(Refusal::Memory),
    }
    let context = CheckContext {
        alloc,
        schema,
        filtered_type,
        variables: &Variables::Empty,
        text,
        nodes,
    };
    judge_nodes(&context, walk)
}

/// Judges all nodes of a context without variables, and puts them into the list.
#[inline(always)]
fn judge_nodes(context: &CheckContext<'_>, walk: &mut Walk) -> Result<(), Refusal>
    requires context { IsContext context.now }
    requires ready { IsReady context.now walk.old }
    requires scope { scope_of context.now ≡ [] }
    ensures stands { IfOk result (λ _. IsStanding context.now.schema.now context.now.filtered_type [] walk.new
        0 (length walk.new.list.nodes) (whole_tree context.now)) }
    ensures truth { IfOk result (λ _. (found : CheckedNode) → slice_get walk.new.list.nodes 0 ≡ Some found
        → IsBooleanOrNull (expr_type context.now.schema.now found.edm_type)) }
    ensures fault { IfErr result (IsTypeRefusal (slots_of context.now.schema.now)
        (type_name_at context.now.schema.now context.now.filtered_type) (whole_tree context.now)
        (length context.now.text.now)) }
{
    if checked_nodes(context, 0, context.nodes.len(), walk) {
        if walk.type_at(0).is_truth() {
            Ok(())
        } else {
            Err(Refusal::Typing(not_boolean(context.text.len())))
        }
    } else {
        match walk.fault {
            Some(fault) => Err(Refusal::Typing(fault)),
            None => Err(Refusal::Memory),
        }
    }
}

/// The fault of a whole text of that length whose type is not that of a condition.
fn not_boolean(len: usize) -> TypeFault
    ensures { result ≡ record { code = TypeFaultCode.NotBoolean; span = record { start = 0; stop = len } } }
{
    TypeFault {
        code: TypeFaultCode::NotBoolean,
        span: Span {
            start: 0,
            stop: len,
        },
    }
}

/// Why a text has no tree, as a refusal.
fn refusal_of(fault: TextOrSyntaxFault) -> Refusal
    ensures { result ≡ refusal_of fault }
{
    match fault {
        TextOrSyntaxFault::Text(TextFault::Memory) => Refusal::Memory,
        TextOrSyntaxFault::Syntax(SyntaxFault::Memory) => Refusal::Memory,
        TextOrSyntaxFault::Text(fault) => Refusal::Text(fault),
        TextOrSyntaxFault::Syntax(fault) => Refusal::Syntax(fault),
    }
}
