ghost use Rattle.std.specs.Prelude.{◌≡◌, ◌∷◌, [], ◌++◌, OnOk};

use super::json_path::Path;
use super::parameter::Parameter;
use super::sql_node::SqlNode;
use std::alloc::{AllocError, Global};

/// A tree of SQL as one list of its nodes in pre-order, with its paths and its parameters.
#[derive(Drop)]
pub struct SqlTree {
    pub nodes: Vec<SqlNode>,
    pub paths: Vec<Path>,
    pub parameters: Vec<Parameter>,
}

impl SqlTree {
    /// A tree without nodes.
    pub fn new(alloc: Global) -> SqlTree
        ensures nodes { result.nodes.items ≡ [] }
        ensures paths { result.paths.items ≡ [] }
        ensures parameters { result.parameters.items ≡ [] }
    {
        SqlTree {
            nodes: Vec::new(alloc),
            paths: Vec::new(alloc),
            parameters: Vec::new(alloc),
        }
    }

    /// Adds a node after the others.
    pub fn put(&mut self, node: SqlNode) -> Result<(), AllocError>
        ensures nodes { OnOk result (self.new.nodes.items ≡ self.old.nodes.items ++ node ∷ []) }
        ensures paths { self.new.paths ≡ self.old.paths }
        ensures parameters { self.new.parameters ≡ self.old.parameters }
    {
        match node {
            SqlNode::Field { path, value_type } => self
                .nodes
                .push(SqlNode::Field { path, value_type })?,
            other => self.nodes.push(other)?,
        }
        Ok(())
    }
}
