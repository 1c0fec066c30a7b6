ghost use Rattle.vir_lowering.specs.Decisions.{KeepsLaw};
ghost use Rattle.vir_lowering.specs.Fits.{FitsLaw};

/// A lowered program decides what its source does, on every payment.
pub fn keeps_law()
    ensures { KeepsLaw }
{}

/// Each atom of a lowered program fits its table.
pub fn fits_law()
    ensures { FitsLaw }
{}
