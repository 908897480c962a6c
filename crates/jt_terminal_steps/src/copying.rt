//! A terminal's parameters, kept aside while an event may fail.

ghost use Rattle.std.specs.Prelude.{◌≡◌, IfOk};

use jt_params::ParamTable;
use jt_value::Memory;
use std::alloc::Global;

// The same table again.
pub(crate) fn copy_params(alloc: Global, params: &ParamTable) -> Result<ParamTable, Memory>
    ensures { IfOk result (λ copy. copy ≡ params.now) }
{
    let list = params.list(alloc)?;
    let mut copy = ParamTable::new(alloc);
    match copy.set_all(&list) {
        Ok(()) => Ok(copy),
        Err(_) => Err(Memory),
    }
}
