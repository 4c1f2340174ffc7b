//! Operands that are bound, and the faults of those that may be one.
ghost use Rattle.std.specs.Prelude.{◌≡◌, ◌≢◌, ◌<◌, ◌≤◌, ◌+◌, ◌-◌, [], All, IfOk, OnOk, Some, length, slice_get, true};
ghost use Rattle.std.specs.List.{AllByRecursion};
ghost use Rattle.sql_draft.specs.declared.sql_context.Kind.{Kind};
ghost use Rattle.sql_draft.specs.Growth.{Grows};
ghost use Rattle.sql_outcomes.specs.OperandFaults.{AllHave, carrier_in};
ghost use Rattle.sql_forms.specs.private.Lifts.{IsLifted, IsOpened};
ghost use Rattle.sql_outcomes.specs.private.BoundOperands.{fault_front, faults_front};
ghost use Rattle.sql_draft.specs.OperandHas.{IsInside};
ghost use Rattle.sql_outcomes.specs.private.OperandValues.{IsPut};
ghost use Rattle.sql_draft.specs.Translated.{IsTranslated, question_of};
ghost use Rattle.sql_outcomes.specs.private.Worlds.{PutsAll};

use super::operand_forms::put_operand;
use sql_draft::{Draft, Operand, SqlContext};
use sql_tree::{Carrier, SqlNode};
use std::alloc::AllocError;

/// Operands of an operator or a function, some of which a `Let` binds.
#[derive(Drop)]
pub(crate) struct Lifted {
    /// As the body of the `Let` has them.
    pub(crate) inner: Vec<Operand>,
    /// Those that are bound, as they stand outside it.
    pub(crate) bound: Vec<Operand>,
    pub(crate) level: usize,
}

/// Binds those operands that may be faults, and where it is asked for all others that are no leaves.
pub(crate) fn bind_operands(
    context: &SqlContext<'_, '_>,
    draft: &Draft,
    operands: &[Operand],
    all: bool,
) -> Result<Lifted, AllocError>
    requires inside { All (λ operand. IsInside context.now.checked.now operand.source) operands.now }
    requires valued { all ≡ true → AllByRecursion (λ operand. operand.kind ≢ Kind.Structured) operands.now }
    ensures { IfOk result (IsLifted operands.now draft.now.depth) }
{
    let level = draft.depth_for_more()?;
    let mut inner = Vec::new(draft.alloc);
    let mut bound = Vec::new(draft.alloc);
    for operand in operands.iter() {
        if operand.carrier().is_some() || all && !operand.is_leaf(context) {
            inner.push(operand.bound(level + bound.len()))?;
            bound.push(*operand)?;
        } else {
            inner.push(*operand)?;
        }
    }
    Ok(Lifted {
        inner,
        bound,
        level,
    })
}

/// Puts the fault of an operand that is bound at a level, as its code or as such a carrier has it; what comes of one
/// that is none is to be put next.
fn put_fault_of(
    draft: &mut Draft,
    operand: &Operand,
    level: usize,
    carrier: Option<Carrier>,
) -> Result<(), AllocError>
    ensures { OnOk result (Grows draft.old draft.new (fault_front carrier level (carrier_in operand.now))) }
{
    if let Some(own) = operand.carrier() {
        draft.put(SqlNode::Coalesce)?;
        if let Some(carrier) = carrier {
            draft.put(SqlNode::FaultOfCode { carrier })?;
        }
        draft.put(SqlNode::FaultCode { carrier: own })?;
        draft.put(SqlNode::Bound { level })?;
    }
    Ok(())
}

impl Lifted {
    /// The first operand, as the body has it.
    pub(crate) fn first(&self) -> Operand
        requires { 0 < length self.now.inner.items }
        ensures { slice_get self.now.inner.items 0 ≡ Some result }
    {
        self.inner[0]
    }

    /// The second one.
    pub(crate) fn second(&self) -> Operand
        requires { 1 < length self.now.inner.items }
        ensures { slice_get self.now.inner.items 1 ≡ Some result }
    {
        self.inner[1]
    }

    /// Begins the `Let`, if one is needed; its body is to be put next.
    pub(crate) fn open(&self, draft: &mut Draft) -> Result<(), AllocError>
        ensures { OnOk result (IsOpened self.now draft.old draft.new) }
    {
        let count = self.bound.len();
        if count == 0 {
            return Ok(());
        }
        draft.deepen(count)?;
        draft.put(SqlNode::Let {
            level: self.level,
            count,
        })
    }

    /// Puts the fault of the first operand that is one; what comes of operands that are none is to be put next.
    pub(crate) fn put_faults(
        &self,
        draft: &mut Draft,
        carrier: Option<Carrier>,
    ) -> Result<(), AllocError>
        requires { self.now.level < 1_000_000_000_000 }
        ensures { OnOk result (Grows draft.old draft.new (faults_front carrier self.now.level self.now.bound.items)) }
    {
        for place in 0..self.bound.len() {
            put_fault_of(draft, &self.bound[place], self.level + place, carrier)?;
        }
        Ok(())
    }

    /// Ends the `Let` with the values that it binds.
    #[cycle(put)]
    pub(crate) fn close(
        &self,
        context: &SqlContext<'_, '_>,
        draft: &mut Draft,
    ) -> Result<(), AllocError>
        requires translated { IsTranslated context.now }
        requires put { All (IsPut context.now.checked.now context.now.ranges.now) self.now.bound.items }
        requires deep { length self.now.bound.items ≤ draft.old.depth }
        ensures values { OnOk result (PutsAll (question_of context.now)
            (record draft.old { depth = draft.old.depth - length self.now.bound.items }) draft.new
            (AllHave context.now.checked.now self.now.bound.items) (length self.now.bound.items)) }
        ensures idle { OnOk result (self.now.bound.items ≡ [] → Grows
            (record draft.old { depth = draft.old.depth - length self.now.bound.items }) draft.new []) }
    {
        draft.depth -= self.bound.len();
        for place in 0..self.bound.len() {
            let operand = self.bound[place];
            put_operand(context, draft, &operand, operand.wanted())?;
        }
        Ok(())
    }
}
