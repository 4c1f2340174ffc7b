//! Schemas from CSDL JSON 4.01 documents.
ghost use Rattle.std.specs.Prelude.{◌≡◌, IfOk, IfErr};
ghost use Rattle.serde_json.specs.View.{view};
ghost use Rattle.csdl_declarations.specs.DeclaredType.{AreInOrder};
ghost use Rattle.csdl_declarations.specs.DeclaredTypeView.{types_view};
ghost use Rattle.csdl_declarations.specs.FaultView.{Reads};
ghost use Rattle.csdl_schema.specs.BaseFaults.{all_base_faults};
ghost use Rattle.csdl_schema.specs.Document.{StandsFor, IsSchemaFault, declared_schema, document_faults};
ghost use Rattle.csdl_schema.specs.Resolution.{schema_of};

use super::check_bases::check_types;
use super::place_types::place_types;
use super::read_bases::find_bases;
use super::resolve::place_kinds;
use super::schema::Schema;
use super::type_index::index_types;
use super::unread_types::{DeclaredName, declared_names};
use csdl_declarations::{DeclaredType, SchemaFault, declared_types};
use serde_json::Value;
use std::alloc::Global;

const MAX_BYTES: usize = 1_048_576;

impl Schema {
    /// Reads the schema that a CSDL JSON document of at most 1,048,576 bytes declares.
    ///
    /// A refusal reports the first fault in this order: `TooLarge` for the document's size, `NotJson`, `NotObject`,
    /// `Version`, `BadType` of a namespace, `TooLarge` for more than 4,096 types; then, in the byte order of types'
    /// whole names, each type by itself, `BadType`, and its members, `BadProperty` and `BadEnumMember`; last, in the
    /// same order, `UnknownBase`, `BaseCycle`, `TooLarge` for more than 64 bases, `PropertyTwice`, and `TooLarge` for
    /// more than 1,024 properties.
    pub fn read(alloc: Global, document: &[u8]) -> Result<Schema, SchemaFault>
        ensures accepted { IfOk result (StandsFor document.now) }
        ensures refused { IfErr result (IsSchemaFault document.now) }
    {
        if document.len() > MAX_BYTES {
            return Err(SchemaFault::TooLarge);
        }
        let Ok(text) = str::from_utf8(document) else {
            return Err(SchemaFault::NotJson);
        };
        match Value::from_str(alloc, text) {
            Ok(value) => read_document(alloc, &value),
            Err(refusal) => {
                if refusal.is_memory() {
                    Err(SchemaFault::Memory)
                } else {
                    Err(SchemaFault::NotJson)
                }
            }
        }
    }
}

fn read_document(alloc: Global, document: &Value) -> Result<Schema, SchemaFault>
    ensures { Reads result (document_faults (view document.now)) (λ s. s ≡ declared_schema (view document.now)) }
{
    let declared = declared_types(alloc, document)?;
    let names = declared_names(alloc, declared.as_slice())?;
    Ok(join(alloc, declared, names)?)
}

/// The schema of declared types, or the first fault in the bases of one.
fn join(
    alloc: Global,
    declared: Vec<DeclaredType<'_>>,
    names: Vec<DeclaredName>,
) -> Result<Schema, SchemaFault>
    requires { AreInOrder (types_view declared.items) }
    ensures { Reads result (all_base_faults (types_view declared.entry.items))
        (λ s. s ≡ schema_of (types_view declared.entry.items)) }
{
    let index_by_name = index_types(alloc, &declared)?;
    let kinds = place_kinds(alloc, &declared)?;
    let bases = find_bases(alloc, &declared, &index_by_name)?;
    let types = place_types(alloc, &kinds, &index_by_name, &bases, declared)?;
    let chains = check_types(alloc, &types, &bases)?;
    Ok(Schema {
        types,
        chains,
        index_by_name,
        declared_names: names,
    })
}
