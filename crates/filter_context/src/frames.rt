//! The range variables around a node, with their values.
ghost use Rattle.csdl_schema.specs.SchemaModel.{SchemaModel, slots_of};
ghost use Rattle.filter_context.specs.Frames.{IsAtLevel, environment_in, frames_in};

use edm_values::Value;
use odata_signatures::EdmType;

/// A range variable without its value.
#[derive(Clone, Copy)]
pub struct RangeVariable<'f> {
    pub name: &'f str,
    pub edm_type: EdmType,
}

/// Range variables, each with its value, the innermost first.
#[derive(Clone, Copy)]
pub enum Frames<'f> {
    Empty,
    Bound(&'f RangeVariable<'f>, &'f Value, &'f Frames<'f>),
}

/// What is found of a level. It is the value of its variable, or how many variables there are, none of them there.
#[derive(Clone, Copy)]
pub enum AtLevel<'f> {
    There(&'f Value),
    Fewer(usize),
}

/// The value of the variable around which so many are.
pub fn at_level<'f>(frames: &Frames<'f>, level: usize) -> AtLevel<'f>
    ensures { (schema : SchemaModel)
        → IsAtLevel (slots_of schema) (environment_in schema (frames_in frames.now)) level result }
{
    match frames {
        Frames::Empty => AtLevel::Fewer(0),
        Frames::Bound(_, value, outer) => match at_level(*outer, level) {
            AtLevel::There(found) => AtLevel::There(found),
            AtLevel::Fewer(count) => {
                if count == level {
                    AtLevel::There(*value)
                } else {
                    AtLevel::Fewer(count + 1)
                }
            }
        },
    }
}
