//! Where an entity has its value, and what is expanded in it.
ghost use Rattle.std.specs.Prelude.{◌≡◌};
ghost use Rattle.edm_entities.specs.private.KeptRows.{expansion_in, value_in};

use csdl_schema::Expansion;
use edm_values::Value;

/// What is expanded in an entity, and its value: its own, or those of the plan and the reader that its row was read by.
#[derive(Drop)]
pub(crate) enum KeptRow<'s> {
    Own(Expansion, Value),
    Borrowed(&'s Expansion, &'s Value),
}

impl KeptRow<'_> {
    pub(crate) fn expansion(&self) -> &Expansion
        ensures { result.now ≡ expansion_in self.now }
    {
        match self {
            KeptRow::Own(expansion, _) => expansion,
            KeptRow::Borrowed(expansion, _) => *expansion,
        }
    }

    #[inline(always)]
    pub(crate) fn value(&self) -> &Value
        ensures { result.now ≡ value_in self.now }
    {
        match self {
            KeptRow::Own(_, value) => value,
            KeptRow::Borrowed(_, value) => *value,
        }
    }
}
