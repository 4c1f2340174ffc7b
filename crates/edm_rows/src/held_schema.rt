//! The schema of a reader of rows.
ghost use Rattle.std.specs.Prelude.{◌≡◌};
ghost use Rattle.edm_rows.specs.HeldSchema.{schema_in};

use csdl_schema::Schema;
use std::sync::Arc;

/// A schema that is borrowed or shared. What holds a shared one borrows nothing, and may be stored.
#[derive(Drop)]
pub enum HeldSchema<'s> {
    Borrowed(&'s Schema),
    Shared(Arc<Schema>),
}

impl HeldSchema<'_> {
    /// Returns the schema.
    #[inline(always)]
    pub fn schema(&self) -> &Schema
        ensures { result.now ≡ schema_in self.now }
    {
        match self {
            HeldSchema::Borrowed(schema) => *schema,
            HeldSchema::Shared(schema) => schema,
        }
    }
}
