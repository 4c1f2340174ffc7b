//! The version of a document and its schemas' namespaces (CSDL JSON 4.01, sections 2 and 4).
ghost use Rattle.std.specs.Prelude.{◌≡◌, ℕ, ⊤, codes, List, OnOk, IfOk, IfErr, if◌then◌else◌, nat_eq, false, is_some, unwrap_or, Some};
ghost use Rattle.std.specs.Cmp.Lexicographic.{pointwise};
ghost use Rattle.std.specs.List.{flat_map};
ghost use Rattle.indexmap.specs.IndexMap.{get_by_text};
ghost use Rattle.serde_json.specs.Find.{get};
ghost use Rattle.serde_json.specs.View.{view};
ghost use Rattle.csdl_declarations.specs.Members.{declared_in, is_text, text_at};
ghost use Rattle.csdl_declarations.specs.Faults.{alias_count, is_version, is_namespace, is_alias, is_schema, namespace_faults};
ghost use Rattle.csdl_declarations.specs.FaultView.{Reads};
ghost use Rattle.csdl_declarations.specs.private.DocumentView.{member_view, members_of, is_shared_count};

use super::member::{Member, is_text, text_at};
use super::names::is_read_over;
use super::refusals::bad_type;
use super::schema_fault::SchemaFault;
use indexmap::IndexMap;
use serde_json::Value;
use std::alloc::Global;

pub(crate) fn is_version(document: &Value) -> bool
    ensures { result ≡ is_version (text_at (codes "$Version") (view document.now)) }
{
    let version = text_at(document, "$Version");
    is_text(version, "4.0") || is_text(version, "4.01")
}

/// Whether the document has a schema of that namespace.
fn is_namespace(document: &Value, name: &str) -> bool
    ensures { result ≡ is_namespace (declared_in (view document.now)) name.now }
{
    !is_read_over(name) && document.get(name).is_some()
}

/// Notes a further schema with the alias.
fn note_alias(
    alloc: Global,
    alias: &str,
    shared: &mut IndexMap<String, bool>,
) -> Result<(), SchemaFault>
    ensures refused { IfErr result (λ e. e ≡ SchemaFault.Memory) }
    ensures noted { OnOk result ((asked : List ℕ) → get_by_text shared.new asked
        ≡ (if pointwise nat_eq alias.now asked then Some (is_some (get_by_text shared.old asked))
        else get_by_text shared.old asked)) }
{
    let is_known = shared.contains_key(alias);
    let key = alias.to_owned(alloc)?;
    shared.insert(key, is_known)?;
    Ok(())
}

/// Notes the alias of a further schema, if that has one.
fn note_schema(
    alloc: Global,
    schema: Member<'_>,
    shared: &mut IndexMap<String, bool>,
) -> Result<(), SchemaFault>
    ensures refused { IfErr result (λ e. e ≡ SchemaFault.Memory) }
    ensures noted { OnOk result ((asked : List ℕ) → get_by_text shared.new asked
        ≡ (if is_text asked (text_at (codes "$Alias") (member_view schema.entry).1)
        then Some (is_some (get_by_text shared.old asked)) else get_by_text shared.old asked)) }
{
    match text_at(schema.value, "$Alias") {
        Some(alias) => note_alias(alloc, alias, shared),
        None => Ok(()),
    }
}

/// Of each alias, whether more than one schema has it.
fn shared_aliases(
    alloc: Global,
    schemas: &[Member<'_>],
) -> Result<IndexMap<String, bool>, SchemaFault>
    ensures refused { IfErr result (λ e. e ≡ SchemaFault.Memory) }
    ensures shared { IfOk result (λ m. (asked : List ℕ)
        → get_by_text m asked ≡ is_shared_count (alias_count (members_of schemas.now) asked)) }
{
    let mut shared = IndexMap::new(alloc);
    for schema in schemas {
        note_schema(alloc, *schema, &mut shared)?;
    }
    Ok(shared)
}

fn is_shared(shared: &IndexMap<String, bool>, alias: &str) -> bool
    ensures { result ≡ unwrap_or (get_by_text shared.now alias.now) false }
{
    match shared.get(alias) {
        Some(is_shared) => *is_shared,
        None => false,
    }
}

/// An alias is left out, or a text that is no namespace and no alias of another schema.
fn is_alias(document: &Value, shared: &IndexMap<String, bool>, schema: Member<'_>) -> bool
    requires { (asked : List ℕ)
        → get_by_text shared.now asked ≡ is_shared_count (alias_count (declared_in (view document.now)) asked) }
    ensures { result ≡ is_alias (declared_in (view document.now)) (get (codes "$Alias") (member_view schema.entry).1) }
{
    match schema.value.get("$Alias") {
        Some(alias) => match alias.as_str() {
            Some(alias) => !is_namespace(document, alias) && !is_shared(shared, alias),
            None => false,
        },
        None => true,
    }
}

fn is_schema(document: &Value, shared: &IndexMap<String, bool>, schema: Member<'_>) -> bool
    requires { (asked : List ℕ)
        → get_by_text shared.now asked ≡ is_shared_count (alias_count (declared_in (view document.now)) asked) }
    ensures { result ≡ is_schema (declared_in (view document.now)) (member_view schema.entry) }
{
    schema.value.is_object() && is_alias(document, shared, schema)
}

/// `BadType` of the first namespace whose value is no object or whose alias is none; `schemas` are the
/// document's.
pub(crate) fn check_namespaces(
    alloc: Global,
    document: &Value,
    schemas: &[Member<'_>],
) -> Result<(), SchemaFault>
    requires { members_of schemas.now ≡ declared_in (view document.now) }
    ensures { Reads result
        (flat_map (namespace_faults (declared_in (view document.now))) (declared_in (view document.now))) (λ _. ⊤) }
{
    let shared = shared_aliases(alloc, schemas)?;
    for schema in schemas {
        if !is_schema(document, &shared, *schema) {
            return Err(bad_type(alloc, schema.name));
        }
    }
    Ok(())
}
