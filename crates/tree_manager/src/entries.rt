//! The entries of a session's line.
use bench_records::BenchRecord;
use lease_table::{Lease, LeaseId};

/// How a session began, straight behind the records that were replayed.
#[derive(Clone, Copy, PartialEq, Eq, Debug)]
pub struct Attachment {
    /// The moment of the disk straight behind the journal's opening sync.
    pub opened: u64,
    /// How many faults the disk had then had.
    pub faults: u64,
    /// How many work records the session may apply.
    pub budget: u32,
    /// How deep it searches, in plies.
    pub depth: u8,
    /// For how many pieces its endgame tables are.
    pub pieces: u8,
    /// For how many leases given a lease lasts.
    pub limit: u32,
}

/// One entry of a session's history. Contracts speak of lists of entries, and no program makes one.
#[derive(Drop)]
pub enum Entry {
    /// A record was replayed or staged.
    Put(BenchRecord),
    /// The session began.
    Attached(Attachment),
    /// A lease was given.
    Leased(Lease),
    /// A lease ended without a result.
    Released(LeaseId),
    /// All records before it are durable since this moment of the disk, and are applied.
    Acked(u64),
    /// The disk refused a commit. It then had this many faults, and the session has failed.
    Broken(u64),
}
