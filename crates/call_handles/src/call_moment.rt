//! The moment that stands for now where a filter is evaluated.
ghost use Rattle.std.specs.Prelude.{◌≡◌, IfOk, IfErr, None};
ghost use Rattle.odata_checked_filter.specs.Calls.{UsesNow};
ghost use Rattle.odata_checked_filter.specs.Filter.{tree_of_filter};
ghost use Rattle.call_handles.specs.Moments.{IsMomentFor};

use crate::call_fault::Fault;
use edm_values::Moment;
use jiff::civil;
use odata_typing::Checked;

/// Returns the moment that is given, or the first of year 1 where the filter asks for none.
pub fn moment_for(checked: &Checked<'_>, given: Option<Moment>) -> Result<Moment, Fault>
    ensures moment { IfOk result (IsMomentFor checked.now given) }
    ensures needed { IfErr result (λ fault. fault ≡ Fault.MomentNeeded) }
    ensures asks { IfErr result (λ _. UsesNow (tree_of_filter checked.now)) }
    ensures none { IfErr result (λ _. given ≡ None) }
{
    match given {
        Some(moment) => Ok(moment),
        None => if checked.uses_now() {
            Err(Fault::MomentNeeded)
        } else {
            Moment::new(civil::date(1, 1, 1).at(0, 0, 0, 0), 0).ok_or(Fault::MomentNeeded)
        },
    }
}
