ghost use Rattle.std.specs.Prelude.{◌≡◌, ◌≤◌, ◌<◌, ℕ, List, Option, None, length, OnErr, IfOk};
ghost use Rattle.vtl_files.specs.Mem.{SinkPlan, TakesBy};
ghost use Rattle.vtl_files.specs.Outside.{Rose, Takes};

use crate::failed::Failed;

/// A place that takes bytes, as standard output.
pub trait Sink {
    /// The bytes that were taken so far, where they are revealed.
    ghost taken: { Self → Option (List ℕ) };

    /// How often the sink has failed. It never falls.
    ghost faults: { Self → ℕ };

    /// How calls are planned, where that is revealed: which of them fail, and how many bytes one may take.
    ghost plan: { Self → Option SinkPlan } = { λ _. None };

    /// Takes some first bytes of `piece`, and gives how many.
    ///
    /// # Errors
    ///
    /// The sink failed, and took nothing.
    fn write(&mut self, piece: &[u8]) -> Result<usize, Failed>
        ensures faults { faults self.old ≤ faults self.new }
        ensures failed { OnErr result (Rose (faults self.old) (faults self.new)) }
        ensures bound { IfOk result (λ count. count ≤ length piece.now) }
        ensures stuck { IfOk result (λ count. count ≡ 0 → 0 < length piece.now → Rose (faults self.old) (faults self.new)) }
        ensures taken { Takes (taken self.old) (taken self.new) piece.now result }
        ensures plan { TakesBy (plan self.old) (plan self.new) result };
}
