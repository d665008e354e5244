// Why `trim` has no answer.
ghost use Rattle.std.specs.Prelude.{◌≡◌};
ghost use Rattle.run_check.specs.declared.trim_cut.TrimCut.TheVariants.{Memory};
ghost use Rattle.run_check.specs.TrimCut.{cut_of_trim};

use plan_core::OutOfMemory;
use run_input::Cut;

/// Why `trim` has no answer.
#[derive(Clone, Copy, Debug, PartialEq, Eq)]
pub enum TrimCut {
    /// The hinted lines couldn't be written.
    Unwritten,
    /// Memory couldn't be had.
    Memory,
}

impl From<OutOfMemory> for TrimCut {
    ghost from_gives = { λ _ e. e ≡ Memory };

    fn from(_: OutOfMemory) -> Self {
        TrimCut::Memory
    }
}

impl From<TrimCut> for Cut {
    ghost from_gives = { λ cut e. e ≡ cut_of_trim cut };

    fn from(cut: TrimCut) -> Self {
        match cut {
            TrimCut::Unwritten => Cut::Unwritten,
            TrimCut::Memory => Cut::Memory,
        }
    }
}
