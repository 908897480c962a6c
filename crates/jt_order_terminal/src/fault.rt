//! Why an order terminal failed.

ghost use Rattle.std.specs.Prelude.{◌≡◌};
ghost use Rattle.jt_order_terminal.specs.declared.fault.OrderFault.TheVariants.{Memory as NoMemory};
ghost use Rattle.jt_order_terminal.specs.Faults as faults;

use jt_store::StoreError;
use jt_terminal::TerminalError;
use jt_value::Memory;

/// Why an order terminal failed at octets or an event. The terminal is then as after Lost, over what vault and log committed.
#[derive(Clone, Copy, Debug, PartialEq, Eq)]
pub enum OrderFault {
    /// The vault failed: its count of faults rose.
    Vault,
    /// The log failed: its count of faults rose.
    Log,
    /// Memory was wanted and refused.
    Memory,
}

impl From<Memory> for OrderFault {
    ghost from_gives = { λ _ error. error ≡ NoMemory };

    fn from(_memory: Memory) -> OrderFault {
        OrderFault::Memory
    }
}

/// The fault of an event of the wrapped terminal.
pub(crate) fn fault_of(error: TerminalError) -> OrderFault
    ensures { result ≡ faults.fault_of error }
{
    match error {
        TerminalError::Store => OrderFault::Vault,
        TerminalError::Memory => OrderFault::Memory,
    }
}

/// The fault of a call of the log, which never answers Full.
pub(crate) fn log_fault(error: StoreError) -> OrderFault
    ensures { result ≡ faults.log_fault error }
{
    match error {
        StoreError::Failed => OrderFault::Log,
        StoreError::Full(_) | StoreError::Memory => OrderFault::Memory,
    }
}
