//! The figures that were worked on paper, proved as one table.
#![tactic(auto)]

ghost use Rattle.std.specs.Prelude.{◌≡◌};
ghost use Rattle.figures.specs.Worked.{Worked};

/// How many rows the table of worked figures has. That each of them holds is proved with this call.
pub fn rows() -> u8
    ensures figures { Worked }
    ensures count { result ≡ 14 }
{
    14
}
