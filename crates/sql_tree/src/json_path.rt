use csdl_schema::TypeId;

/// Where a path begins.
#[derive(Clone, Copy)]
pub enum Base {
    /// The column that has the whole row as JSON.
    Document,
    /// The column of a property, by its slot.
    Column { slot: usize },
    /// The member that an `Exists` or a `Least` is at.
    Member { level: usize },
}

/// A step to a property of a type, by its slot.
#[derive(Clone, Copy)]
pub struct Step {
    pub owner: TypeId,
    pub slot: usize,
}

/// A position in JSON.
#[derive(Drop)]
pub struct Path {
    pub base: Base,
    pub steps: Vec<Step>,
}
