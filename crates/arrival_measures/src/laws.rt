// What the definitions say of diagrams.
ghost use Rattle.std.specs.Prelude.{ℕ, Bool, All, List};
ghost use Rattle.sig_base.specs.declared.values.Row.{Row};
ghost use Rattle.hour_sweep.specs.Hours.{AreOrdered};
ghost use Rattle.ring_config.specs.Settings.{Settings};
ghost use Rattle.arrival_measures.specs.Points.{DiagramFits, diagrams_of};

/// Law: in the diagrams of ordered rows the offset of each arrival is less than the cycle's length,
/// and those of green and of yellow are at most the length.
pub fn diagrams_fit()
    ensures { (known : ℕ → Bool) (c : Settings) (p a b : ℕ) (rows : List Row) → AreOrdered a b rows
        → All DiagramFits (diagrams_of known c p rows) }
{}
