/// The verdict of a filter on an entity. A filter keeps the entities of which it is true.
#[derive(Clone, Copy, Debug, PartialEq, Eq)]
pub enum Verdict {
    True,
    False,
    Null,
}
