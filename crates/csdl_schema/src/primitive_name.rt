//! The names of the primitive types (CSDL JSON 4.01, section 3.3).
ghost use Rattle.std.specs.Prelude.{◌≡◌};
ghost use Rattle.csdl_schema.specs.Resolution.{primitive_named};

use edm_values::Prim;

/// The primitive type of that name, if it is one that is read.
pub(crate) fn primitive_named(name: &str) -> Option<Prim>
    ensures { result ≡ primitive_named name.now }
{
    if name == "Edm.Boolean" {
        Some(Prim::Bool)
    } else if name == "Edm.Byte" {
        Some(Prim::Byte)
    } else if name == "Edm.SByte" {
        Some(Prim::SByte)
    } else if name == "Edm.Int16" {
        Some(Prim::Int16)
    } else if name == "Edm.Int32" {
        Some(Prim::Int32)
    } else if name == "Edm.Int64" {
        Some(Prim::Int64)
    } else if name == "Edm.String" {
        Some(Prim::String)
    } else if name == "Edm.Date" {
        Some(Prim::Date)
    } else if name == "Edm.DateTimeOffset" {
        Some(Prim::DateTimeOffset)
    } else if name == "Edm.Guid" {
        Some(Prim::Guid)
    } else {
        None
    }
}
