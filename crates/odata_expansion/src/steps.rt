//! Steps between the nodes of an expansion, one after another. Node 0 is the start, and the step at an index leads to
//! the node with the next number.
ghost use Rattle.std.specs.Prelude.{◌≡◌, ◌≤◌, ◌↔◌, [], true, false, length, map, nat_eq, IfOk, IsOk, IsTrue};
ghost use Rattle.std.specs.Cmp.Lexicographic.{pointwise};
ghost use Rattle.odata_expansion.specs.PathSet.{PropertyPath, Covers};
ghost use Rattle.odata_expansion.specs.ExpansionView.{goes_on, is_needed_at, next_node, paths_in};
ghost use Rattle.odata_expansion.specs.private.StepView.{AreSteps, LeadsBack, onto, step_model};

use std::alloc::{AllocError, Global};

/// A step to a property: the node that it starts from, and whether the path that ends with it is in the set.
#[derive(Drop)]
pub(crate) struct Step {
    pub(crate) before: usize,
    pub(crate) name: String,
    pub(crate) needed: bool,
}

/// The node to which the step of that name leads from a node.
pub(crate) fn next_of(steps: &[Step], node: usize, name: &str) -> Option<usize>
    ensures { result ≡ next_node (map step_model steps.now) node name.now }
{
    for index in 0..steps.len() {
        if goes_on(&steps[index], node, name) {
            return Some(index + 1);
        }
    }
    None
}

fn goes_on(step: &Step, node: usize, name: &str) -> bool
    ensures { result ≡ goes_on (step_model step.now) node name.now }
{
    step.before == node && step.name.as_str() == name
}

/// Whether the path to a node is in the set; that to the start never is.
pub(crate) fn is_marked(steps: &[Step], node: usize) -> bool
    ensures { result ≡ is_needed_at (map step_model steps.now) node }
{
    if node == 0 {
        return false;
    }
    match steps.get(node - 1) {
        Some(step) => step.needed,
        None => false,
    }
}

fn are_same_names(step: &Step, other: &Step) -> bool
    ensures { result ≡ pointwise nat_eq (step_model step.now).name (step_model other.now).name }
{
    step.name.as_str() == other.name.as_str()
}

/// Whether a node has the path of a node among other steps. Both are followed back to the start.
fn is_same_path(own: &[Step], own_node: usize, other: &[Step], other_node: usize) -> bool
    requires own { AreSteps (map step_model own.now) }
    requires other { AreSteps (map step_model other.now) }
    requires own_node { own_node ≤ length own.now }
    requires other_node { other_node ≤ length other.now }
    ensures { (names : PropertyPath) → LeadsBack (map step_model other.now) names other_node
        → IsTrue result ↔ LeadsBack (map step_model own.now) names own_node }
{
    let mut node = own_node;
    let mut beside = other_node;
    while node > 0 && beside > 0 {
        let (step, other_step) = (&own[node - 1], &other[beside - 1]);
        if !are_same_names(step, other_step) {
            return false;
        }
        node = step.before;
        beside = other_step.before;
    }
    node == beside
}

/// Whether the path of a node among other steps is in the set.
fn has_path_to(own: &[Step], other: &[Step], node: usize) -> bool
    requires own { AreSteps (map step_model own.now) }
    requires other { AreSteps (map step_model other.now) }
    requires node { node ≤ length other.now }
    ensures { (names : PropertyPath) → LeadsBack (map step_model other.now) names node
        → result ≡ paths_in (map step_model own.now) (onto names []) }
{
    for index in 0..own.len() {
        if is_marked(own, index + 1) && is_same_path(own, index + 1, other, node) {
            return true;
        }
    }
    false
}

/// Whether the path of a node among other steps is in the set, if it is in theirs.
fn is_covered(own: &[Step], other: &[Step], node: usize) -> bool
    requires own { AreSteps (map step_model own.now) }
    requires other { AreSteps (map step_model other.now) }
    requires node { node ≤ length other.now }
    ensures needed { is_needed_at (map step_model other.now) node ≡ true → (names : PropertyPath)
        → LeadsBack (map step_model other.now) names node → result ≡ paths_in (map step_model own.now) (onto names []) }
    ensures other { is_needed_at (map step_model other.now) node ≡ false → result ≡ true }
{
    if is_marked(other, node) {
        has_path_to(own, other, node)
    } else {
        true
    }
}

/// Whether each path of the other steps' set is in that of these.
pub(crate) fn covers(own: &[Step], other: &[Step]) -> bool
    requires own { AreSteps (map step_model own.now) }
    requires other { AreSteps (map step_model other.now) }
    ensures { IsTrue result ↔ Covers (paths_in (map step_model own.now)) (paths_in (map step_model other.now)) }
{
    for index in 0..other.len() {
        if !is_covered(own, other, index + 1) {
            return false;
        }
    }
    true
}

fn copy_step(alloc: Global, step: &Step) -> Result<Step, AllocError>
    ensures { IfOk result (λ copy. step_model copy ≡ step_model step.now) }
{
    let name = step.name.as_str().to_owned(alloc)?;
    Ok(Step {
        before: step.before,
        name,
        needed: step.needed,
    })
}

pub(crate) fn copy_steps(alloc: Global, steps: &[Step]) -> Result<Vec<Step>, AllocError>
    ensures same { IfOk result (λ copies. map step_model copies.items ≡ map step_model steps.now) }
    ensures succeeds { steps.now ≡ [] → IsOk result }
{
    let mut copies = Vec::with_capacity(alloc, steps.len())?;
    for step in steps {
        copies.push(copy_step(alloc, step)?)?;
    }
    Ok(copies)
}
