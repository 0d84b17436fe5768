// The calls of a stand-in that are to fail.

ghost use Rattle.std.specs.Prelude.{◌≡◌, ◌≤◌, is_ok, if◌then◌else◌};
ghost use Rattle.hipe_base.specs.FailurePlan.{no_failures, with_failure, next_fails, after_call, after_fault};

use std::alloc::{AllocError, Global};
use std::marker::Model;

/// The numbers of the calls that are to fail, from 0, beside the counts of calls and of failures,
/// which stand still at 2^64 - 1.
#[derive(Drop)]
pub struct Failures {
    failing: Vec<u64>,
    calls: u64,
    faults: u64,
}

impl Model for Failures {
    ghost use Rattle.hipe_base.specs.FailurePlan.{FailurePlan};

    ghost Value = { FailurePlan };

    ghost view = { λ f. record { failing = f.failing.items; calls = f.calls; faults = f.faults } };
}

impl Failures {
    pub fn new(alloc: Global) -> Failures
        ensures { result ≡ no_failures }
    {
        Failures {
            failing: Vec::new(alloc),
            calls: 0,
            faults: 0,
        }
    }

    /// Lets the call number `call` fail too.
    pub fn fail_at(&mut self, call: u64) -> Result<(), AllocError>
        ensures { self.new ≡ (if is_ok result then with_failure self.old call else self.old) }
    {
        self.failing.push(call)?;
        Ok(())
    }

    /// Counts a call, and says whether it is to fail.
    pub fn next(&mut self) -> bool
        ensures fails { result ≡ next_fails self.old }
        ensures after { self.new ≡ after_call self.old }
    {
        let fails = self.failing.contains(&self.calls);
        self.calls = self.calls.saturating_add(1);
        fails
    }

    /// Counts a failure.
    pub fn fault(&mut self)
        ensures after { self.new ≡ after_fault self.old }
        ensures later { self.old.faults ≤ self.new.faults }
    {
        self.faults = self.faults.saturating_add(1);
    }
}
