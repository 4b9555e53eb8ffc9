//! Which calls of a disk fail on purpose.
ghost use Rattle.std.specs.Prelude.{◌≡◌, ◌+◌, ◌-◌, ◌^◌, Contains, MatchBool, min};

/// Says of one call after another which is to fail.
pub trait Plan {
    /// The next call is to fail.
    ghost fails: { Self → Type 0 };

    /// The plan behind the next call.
    ghost next: { Self → Self };

    /// Goes on by one call, and tells whether it is to fail.
    fn step(&mut self) -> bool
        ensures fails { MatchBool result (fails self.old) (¬ fails self.old) }
        ensures next { self.new ≡ next self.old };
}

/// Passes a number of calls and fails every later one.
#[derive(Drop)]
pub struct Fuse {
    left: u64,
}

impl Fuse {
    /// Passes the next `pass` calls.
    pub fn new(pass: u64) -> Fuse
        ensures { result.left ≡ pass }
    {
        Fuse { left: pass }
    }
}

impl Plan for Fuse {
    ghost fails = { λ fuse. fuse.left ≡ 0 };

    ghost next = { λ fuse. record { left = fuse.left - 1 } };

    fn step(&mut self) -> bool {
        let blown = self.left == 0;
        self.left = self.left.saturating_sub(1);
        blown
    }
}

/// Fails the calls of these numbers. Calls are numbered from 0 on, those that fail too.
#[derive(Drop)]
pub struct FailingCalls {
    failing: Vec<u64>,
    calls: u64,
}

impl FailingCalls {
    /// Fails the calls whose numbers are in `failing`. The first call has number 0.
    pub fn new(failing: Vec<u64>) -> FailingCalls
        ensures failing { result.failing ≡ failing }
        ensures calls { result.calls ≡ 0 }
    {
        FailingCalls { failing, calls: 0 }
    }
}

impl Plan for FailingCalls {
    ghost fails = { λ plan. Contains plan.failing.items plan.calls };

    ghost next = { λ plan. record {
      failing = plan.failing;
      calls = min (plan.calls + 1) (2 ^ 64 - 1);
    } };

    fn step(&mut self) -> bool {
        let call = self.calls;
        self.calls = call.saturating_add(1);
        self.failing.contains(&call)
    }
}
