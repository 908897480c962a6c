//! What is known of what a vault loads, by the types of its items. Nothing is done here but look at them.

ghost use Rattle.std.specs.Prelude.{All};
ghost use Rattle.jt_position.specs.Fixes.{IsFix};
ghost use Rattle.jt_terminal_rule.specs.Machines.{AreSerials};

use jt_position::Fix;
use jt_store::Unit;

// Each fix is a position, of at most 1,023 octets.
pub(crate) fn look_at_fixes(fixes: &[Fix])
    ensures { All IsFix fixes.now }
{
    for fix in fixes {
        let _octets = fix.as_slice();
    }
}

// Each serial has sixteen bits.
pub(crate) fn look_at_serials(units: &[Unit])
    ensures { AreSerials units.now }
{
    for unit in units {
        let Unit { serial, .. } = unit;
        let _serial = *serial;
    }
}
