//! What a bench is made for.
ghost use Rattle.std.specs.Prelude.{◌≤◌};
ghost use Rattle.certificate_checker.specs.declared.outcomes.TheConstants.{MOST_DEPTH};
ghost use Rattle.bench_core.specs.declared.settings.TheConstants.{MOST_LEASE, MOST_WORK};

/// The work records that all sessions of one journal may have together.
pub const MOST_WORK: u32 = 1_000_000;

/// A lease lasts for at most this many leases given.
pub const MOST_LEASE: u32 = 1_000_000_000;

/// What a bench is made for, within its limits.
#[derive(Clone, Copy, PartialEq, Eq, Debug)]
pub struct Settings {
    /// For how many pieces the endgame tables are, 2 or 3.
    pub pieces: u8,
    /// How deep a leaf is searched, in plies, at most 12.
    pub depth: u8,
    /// How many work records a session may apply, at most 1,000,000.
    pub budget: u32,
    /// For how many leases given a lease lasts, 1 to 1,000,000,000.
    pub lease: u32,
    pub ghost shallow: { depth ≤ MOST_DEPTH },
    pub ghost payable: { budget ≤ MOST_WORK },
    pub ghost lasts: { 1 ≤ lease },
    pub ghost ends: { lease ≤ MOST_LEASE },
}
