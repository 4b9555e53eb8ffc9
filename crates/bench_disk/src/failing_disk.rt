//! A disk that fails on purpose.
ghost use Rattle.std.specs.Prelude.{◌≡◌, ◌+◌, ◌-◌, ◌≤◌, ◌^◌, length, min, IfOk, OnOk};
ghost use Rattle.bench_disk.specs.Disk.{HasRead, IsHonest, NothingPending, written};
ghost use Rattle.bench_disk.specs.Runs.{IsCall, OnlyLooks, OnlySyncs, OnlyWrites};

use crate::failing_plan::{FailingCalls, Fuse, Plan};
use crate::{Disk, DiskFault};

/// Fails the calls of the device that a plan says, and passes the others to the disk below, which
/// those that fail do not reach.
#[derive(Drop)]
pub struct FailingDisk<D: Disk, P: Plan> {
    disk: D,
    plan: P,
    refused: u64,
}

/// Passes a number of calls to the disk below and fails every later one.
pub type FuseDisk<D> = FailingDisk<D, Fuse>;

/// Fails the calls of the device whose numbers it was given, and passes the others to the disk
/// below. Calls are numbered from 0 on, those that fail too.
pub type FaultDisk<D> = FailingDisk<D, FailingCalls>;

impl<D: Disk> FailingDisk<D, Fuse> {
    ghost use Rattle.bench_disk.specs.FailingDisk.{IsFuse};

    /// Passes the next `pass` calls of the device.
    pub fn new(disk: D, pass: u64) -> FuseDisk<D>
        ensures { IsFuse result disk pass }
    {
        FailingDisk {
            disk,
            plan: Fuse::new(pass),
            refused: 0,
        }
    }
}

impl<D: Disk> FailingDisk<D, FailingCalls> {
    ghost use Rattle.bench_disk.specs.FailingDisk.{IsFaulty};

    /// Fails the calls whose numbers are in `fail`. The first call has number 0.
    pub fn new(disk: D, fail: Vec<u64>) -> FaultDisk<D>
        ensures { IsFaulty result disk fail }
    {
        FailingDisk {
            disk,
            plan: FailingCalls::new(fail),
            refused: 0,
        }
    }
}

impl<D: Disk, P: Plan + Drop> FailingDisk<D, P> {
    ghost use Rattle.bench_disk.specs.FailingDisk.{StepsPlan};

    /// The disk below, with what reached it.
    pub fn into_inner(self) -> D
        ensures { result ≡ self.disk }
    {
        self.disk
    }

    /// Goes on by one call, and refuses it where it is to fail.
    fn step(&mut self) -> Result<(), DiskFault>
        ensures { StepsPlan P.fails P.next self.old self.new result }
    {
        if self.plan.step() {
            self.refused = self.refused.saturating_add(1);
            return Err(DiskFault);
        }
        Ok(())
    }
}

impl<D: Disk, P: Plan + Drop> Disk for FailingDisk<D, P> {
    ghost use Rattle.bench_disk.specs.FailingDisk.{UsesPlan, below, faults_of};

    const TELLS: bool = D::TELLS;

    ghost TELLS = { D.TELLS };

    ghost reads = { below D.reads };

    ghost images = { below D.images };

    ghost images_since = { below D.images_since };

    ghost moment = { below D.moment };

    ghost faults = { faults_of D.faults };

    ghost reads_is_image = { λ over. D.reads_is_image over.disk };

    ghost now_counts = { λ over. D.now_counts over.disk };

    ghost earlier_counts = { λ over. D.earlier_counts over.disk };

    ghost only_now = { λ over. D.only_now over.disk };

    fn len(&mut self) -> Result<u64, DiskFault>
        ensures length { IsHonest D.TELLS → IfOk result (λ n. n ≡ length (D.reads self.old.disk)) }
        ensures bound { IfOk result (λ n. n ≤ 2 ^ 62) }
        ensures looks { IsHonest D.TELLS → OnlyLooks (below D.reads) (below D.images)
            (below D.images_since) (below D.moment) self.old self.new }
        ensures call { IsCall (below D.moment) (faults_of D.faults) self.old self.new result }
        ensures plan { UsesPlan D.faults P.fails P.next self.old self.new result }
    {
        self.step()?;
        self.disk.len()
    }

    fn read_at(&mut self, at: u64, into: &mut [u8]) -> Result<usize, DiskFault>
        ensures bytes { IsHonest D.TELLS → IfOk result
            (λ n. HasRead at (D.reads self.old.disk) n into.old into.new) }
        ensures bound { IfOk result (λ n. n ≤ length into.old) }
        ensures looks { IsHonest D.TELLS → OnlyLooks (below D.reads) (below D.images)
            (below D.images_since) (below D.moment) self.old self.new }
        ensures call { IsCall (below D.moment) (faults_of D.faults) self.old self.new result }
        ensures plan { UsesPlan D.faults P.fails P.next self.old self.new result }
    {
        self.step()?;
        self.disk.read_at(at, into)
    }

    fn write_at(&mut self, at: u64, from: &[u8]) -> Result<(), DiskFault>
        requires { IsHonest D.TELLS → at ≤ length (D.reads self.old.disk) }
        ensures written { IsHonest D.TELLS →
            OnOk result (D.reads self.new.disk ≡ written (D.reads self.old.disk) at from.now) }
        ensures bound { OnOk result (at + length from.now ≤ 2 ^ 62) }
        ensures writes { IsHonest D.TELLS →
            OnlyWrites (below D.images) (below D.images_since) (below D.moment) at (length from.now)
            self.old self.new }
        ensures call { IsCall (below D.moment) (faults_of D.faults) self.old self.new result }
        ensures plan { UsesPlan D.faults P.fails P.next self.old self.new result }
    {
        self.step()?;
        self.disk.write_at(at, from)
    }

    fn sync(&mut self) -> Result<(), DiskFault>
        ensures durable { IsHonest D.TELLS →
            OnOk result (NothingPending (D.reads self.new.disk) (D.images self.new.disk)) }
        ensures syncs { IsHonest D.TELLS → OnlySyncs (below D.reads) (below D.images)
            (below D.images_since) (below D.moment) self.old self.new }
        ensures call { IsCall (below D.moment) (faults_of D.faults) self.old self.new result }
        ensures plan { UsesPlan D.faults P.fails P.next self.old self.new result }
    {
        self.step()?;
        self.disk.sync()
    }

    fn moment(&self) -> u64 {
        self.disk.moment()
    }

    fn faults(&self) -> u64 {
        self.disk.faults().saturating_add(self.refused)
    }
}
