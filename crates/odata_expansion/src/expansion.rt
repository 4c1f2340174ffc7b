ghost use Rattle.std.specs.Prelude.{◌≡◌, ◌==◌, ◌≤◌, ◌↔◌, ◌++◌, ◌∷◌, [], ℕ, false, length, map, IfOk, IsOk, IsTrue, OnErr, OnOk};
ghost use Rattle.odata_expansion.specs.PathSet.{PropertyPath, Covers, with_path};
ghost use Rattle.odata_expansion.specs.ExpansionView.{is_needed_at, next_node, paths_in, IsReached, KeepsPaths, LeadsTo};
ghost use Rattle.odata_expansion.specs.private.StepView.{marked};

use super::steps::{Step, copy_steps, covers, is_marked, next_of};
use std::alloc::{AllocError, Global};
use std::marker::Model;

/// A set of property paths, as steps that they share.
#[derive(Drop)]
pub struct Expansion {
    pub(crate) alloc: Global,
    pub(crate) steps: Vec<Step>,
}

impl Model for Expansion {
    ghost use Rattle.std.specs.Prelude.{List};
    ghost use Rattle.odata_expansion.specs.ExpansionView.{StepModel};

    ghost Value = { List StepModel };

    ghost use Rattle.odata_expansion.specs.private.StepView.{steps_model, AreKeptSteps};

    ghost view = { steps_model };

    ghost invariant = { AreKeptSteps };
}

impl Expansion {
    /// Creates the set without paths.
    pub fn none(alloc: Global) -> Expansion
        ensures { (path : PropertyPath) → paths_in result path ≡ false }
    {
        Expansion {
            alloc,
            steps: Vec::new(alloc),
        }
    }

    /// Returns whether the set has no steps, and so no paths.
    pub fn is_empty(&self) -> bool
        ensures { result ≡ (length self.now == 0) }
    {
        self.steps.is_empty()
    }

    /// Returns whether the path of these names is in the set. The empty path never is.
    pub fn needs(&self, path: &[&str]) -> bool
        ensures { result ≡ paths_in self.now (map (λ name. name.now) path.now) }
    {
        let mut node = 0;
        for name in path {
            match self.next_node(node, *name) {
                Some(next) => node = next,
                None => return false,
            }
        }
        self.is_needed(node)
    }

    /// Returns whether each path of the other set is in this one.
    pub fn covers(&self, other: &Expansion) -> bool
        ensures { IsTrue result ↔ Covers (paths_in self.now) (paths_in other.now) }
    {
        covers(self.steps.as_slice(), other.steps.as_slice())
    }

    /// Puts the path of these names into the set. The empty path, and one that is in the set, change nothing; nor does
    /// a refusal, which is running out of memory.
    pub fn add(&mut self, path: &[&str]) -> Result<(), AllocError>
        ensures added { OnOk result ((asked : PropertyPath) → paths_in self.new asked
            ≡ with_path (paths_in self.old) (map (λ name. name.now) path.now) asked) }
        ensures refused { OnErr result ((asked : PropertyPath) → paths_in self.new asked ≡ paths_in self.old asked) }
    {
        let mut node = 0;
        for name in path {
            node = self.step_on(node, *name)?;
        }
        self.mark(node);
        Ok(())
    }

    /// Copies the set. The set without steps is copied in any memory.
    pub fn copy(&self, alloc: Global) -> Result<Expansion, AllocError>
        ensures same { IfOk result (λ copy. copy ≡ self.now) }
        ensures succeeds { self.now ≡ [] → IsOk result }
    {
        let steps = copy_steps(alloc, self.steps.as_slice())?;
        Ok(Expansion { alloc, steps })
    }

    /// Returns the node to which the step of that name leads from a node, the start being node 0. Where it returns
    /// none, no path of the set goes on there.
    pub fn next_node(&self, node: usize, name: &str) -> Option<usize>
        ensures { result ≡ next_node self.now node name.now }
    {
        next_of(self.steps.as_slice(), node, name)
    }

    /// Returns whether the path to a node is in the set.
    pub fn is_needed(&self, node: usize) -> bool
        ensures { result ≡ is_needed_at self.now node }
    {
        is_marked(self.steps.as_slice(), node)
    }

    /// Returns the node to which a step of that name leads, and adds it where there is none. The set stays as it is.
    pub fn step_on(&mut self, node: usize, name: &str) -> Result<usize, AllocError>
        requires { IsReached self.old node }
        ensures leads { IfOk result (λ next. (path : PropertyPath)
            → LeadsTo self.old path node → LeadsTo self.new (path ++ name.now ∷ []) next) }
        ensures kept { KeepsPaths self.old self.new }
    {
        if let Some(next) = self.next_node(node, name) {
            return Ok(next);
        }
        let name = name.to_owned(self.alloc)?;
        self.steps.push(Step {
            before: node,
            name,
            needed: false,
        })?;
        Ok(self.steps.len())
    }

    /// Puts the path to a node into the set; that to the start is in none.
    pub fn mark(&mut self, node: usize)
        requires { IsReached self.old node }
        ensures added { (path asked : PropertyPath) → LeadsTo self.old path node
            → paths_in self.new asked ≡ with_path (paths_in self.old) path asked }
        ensures leads { (path : PropertyPath) (other : ℕ)
            → LeadsTo self.old path other → LeadsTo self.new path other }
    {
        self.set_flag(node);
    }

    fn set_flag(&mut self, node: usize)
        requires { node ≤ length self.old }
        ensures { self.new ≡ marked node self.old }
    {
        if node > 0 {
            self.steps[node - 1].needed = true;
        }
    }
}
