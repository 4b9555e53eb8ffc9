//! What the search of a leaf found.
ghost use Rattle.std.specs.Prelude.{◌≡◌};
ghost use Rattle.worker_gate.specs.Work.{is_value_told};

use bench_core::LeaseResult;

/// What the search of a leaf found, made ready for staging.
#[derive(Drop)]
pub struct LeafFound {
    pub result: LeaseResult,
    /// It tells the value of the leaf's position.
    pub tells_value: bool,
    pub ghost value: { tells_value ≡ is_value_told result.outcome },
}
