//! The usage line.

ghost use Rattle.std.specs.Prelude.{◌≡◌, ◌++◌, string_bytes, OnOk};
ghost use Rattle.jt_cli.specs.Usage.{usage_line};

use std::alloc::AllocError;

/// What every faulty command line is answered.
#[tactic(auto, unfolding(crate::specs::Usage::usage_line))]
pub fn push_usage_line(text: &mut String) -> Result<(), AllocError>
    ensures { OnOk result (string_bytes text.new ≡ string_bytes text.old ++ usage_line) }
{
    text.push_str(
        "usage: jt808 view|check|rehearse|make|platform|report|orders|fence|relay|gateway\n",
    )
}
