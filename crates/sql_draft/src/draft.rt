ghost use Rattle.std.specs.Prelude.{◌≡◌, ◌⊎◌, ◌∷◌, [], ◌<◌, ◌≤◌, ℕ, IfErr, IfOk, OnOk, Some, length, slice_get};
ghost use Rattle.sql_tree.specs.declared.sql_node.SqlNode.{SqlNode};
ghost use Rattle.sql_tree.specs.declared.parameter.Parameter.{Parameter};
ghost use Rattle.sql_tree.specs.declared.json_path.Path.{Path};
ghost use Rattle.sql_draft.specs.Growth.{GrowsBy, IsDeeper};

use sql_tree::{Digit, Parameter, Path, SqlNode, SqlTree, SqlType};
use std::alloc::{AllocError, Global};

/// No memory holds a tree that binds so many values and members: each takes a node of it.
const DEPTH_LIMIT: usize = 1_000_000_000_000;

/// A tree while it is made: its nodes so far, and what the next one may name.
#[derive(Drop)]
pub struct Draft {
    /// What its lists grow by.
    pub alloc: Global,
    pub tree: SqlTree,
    /// The level of the member for which each range variable in scope stands.
    pub members: Vec<usize>,
    /// How many values and members are bound around the next node.
    pub depth: usize,
}

impl Draft {
    /// A draft of no nodes.
    pub fn new(alloc: Global) -> Draft
        ensures nodes { result.tree.nodes.items ≡ [] }
        ensures paths { result.tree.paths.items ≡ [] }
        ensures parameters { result.tree.parameters.items ≡ [] }
        ensures members { result.members.items ≡ [] }
        ensures depth { result.depth ≡ 0 }
    {
        Draft {
            alloc,
            tree: SqlTree::new(alloc),
            members: Vec::new(alloc),
            depth: 0,
        }
    }

    /// How many values and members are bound around the next node; out of memory if no tree can bind more.
    pub fn depth_for_more(&self) -> Result<usize, AllocError>
        ensures ok { IfOk result (λ depth. (depth ≡ self.now.depth) × (depth < 1_000_000_000_000)) }
        ensures err { IfErr result (λ _. 1_000_000_000_000 ≤ self.now.depth) }
    {
        if DEPTH_LIMIT <= self.depth {
            return Err(AllocError);
        }
        Ok(self.depth)
    }

    /// Binds so many values or members more around the next node; out of memory if no tree can bind them.
    pub fn deepen(&mut self, count: usize) -> Result<(), AllocError>
        ensures ok { OnOk result (IsDeeper self.old self.new count) }
        ensures err { IfErr result (λ _. (1_000_000_000_000 ≤ self.old.depth) ⊎ (1_000_000_000_000 ≤ count)) }
    {
        let depth = self.depth_for_more()?;
        if DEPTH_LIMIT <= count {
            return Err(AllocError);
        }
        self.depth = depth + count;
        Ok(())
    }

    /// The level of the member for which a range variable stands; 0 of one that is not in scope.
    pub fn member_level(&self, variable: usize) -> usize
        ensures { (level : ℕ) → slice_get self.now.members.items variable ≡ Some level → result ≡ level }
    {
        match self.members.get(variable) {
            Some(level) => *level,
            None => 0,
        }
    }

    /// Adds a path and returns its number.
    pub fn add_path(&mut self, path: Path) -> Result<usize, AllocError>
        ensures ok { IfOk result (λ number. (number ≡ length self.old.tree.paths.items)
            × GrowsBy self.old self.new [] (path ∷ []) []) }
    {
        let number = self.tree.paths.len();
        self.tree.paths.push(path)?;
        Ok(number)
    }

    /// Adds a node after those that are there.
    pub fn put(&mut self, node: SqlNode) -> Result<(), AllocError>
        ensures ok { OnOk result (GrowsBy self.old self.new (node ∷ []) [] []) }
    {
        self.tree.put(node)?;
        Ok(())
    }

    /// Adds a number of the tree itself.
    pub fn put_number(&mut self, value: Digit) -> Result<(), AllocError>
        ensures ok { OnOk result (GrowsBy self.old self.new (SqlNode.Number value ∷ []) [] []) }
    {
        self.put(SqlNode::Number { value })
    }

    /// Adds a parameter and its value.
    pub fn put_parameter(
        &mut self,
        parameter: Parameter,
        value_type: SqlType,
    ) -> Result<(), AllocError>
        ensures ok { OnOk result (GrowsBy self.old self.new
            (SqlNode.Parameter (length self.old.tree.parameters.items) value_type ∷ []) [] (parameter ∷ [])) }
    {
        let place = self.tree.parameters.len();
        self.tree.parameters.push(parameter)?;
        self.put(SqlNode::Parameter { place, value_type })
    }
}
