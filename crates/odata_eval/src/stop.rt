use odata_filter_operations::EvalFault;

/// Why a walk stopped early. It is the walk's own: what it reports leaves by `Result<Option<_>, EvalFault>`.
#[derive(Clone, Copy)]
pub(crate) enum EvalStop {
    /// The filter has no value on the entity.
    Fault(EvalFault),
    /// The walk asked for more than its budget had left.
    TooCostly,
}
