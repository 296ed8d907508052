//! Calls that are numbered from 0, and those of them that are to fail.
ghost use Rattle.std.specs.Prelude.{◌≡◌, ◌≤◌, ◌||◌, MatchResult, OnErr, is_err};
ghost use Rattle.fx_io.specs.Faults.{Rose};
ghost use Rattle.fx_io.specs.Plan.{first_plan, fails_next, after_call, after_failure};

use crate::files::Failed;
use std::marker::Model;

/// Which calls are to fail, and the counts of calls and of failures so far.
#[derive(Drop)]
pub struct FailurePlan {
    failing: Vec<u64>,
    calls: u64,
    faults: u64,
}

impl Model for FailurePlan {
    ghost use Rattle.fx_io.specs.Plan.{Plan};

    ghost Value = { Plan };

    ghost view = { λ plan. record { failing = plan.failing.items; calls = plan.calls; faults = plan.faults } };
}

impl FailurePlan {
    /// A plan under which the calls of these numbers fail. None was made yet.
    pub fn new(failing: Vec<u64>) -> FailurePlan
        ensures { result ≡ first_plan failing.items }
    {
        FailurePlan {
            failing,
            calls: 0,
            faults: 0,
        }
    }

    /// How many failures were counted. `u64::MAX` stands for more, too.
    pub fn faults(&self) -> u64
        ensures { result ≡ self.now.faults }
    {
        self.faults
    }

    /// Counts a call.
    ///
    /// # Errors
    /// Its number is one of the failing. The failure is counted.
    pub fn begin_call(&mut self) -> Result<(), Failed>
        ensures fails { is_err result ≡ fails_next self.old }
        ensures plan { MatchResult result (λ _. self.new ≡ after_call self.old)
            (λ _. self.new ≡ after_failure self.old) }
        ensures faults { self.old.faults ≤ self.new.faults }
        ensures cause { OnErr result (Rose self.old.faults self.new.faults) }
    {
        self.begin_call_unless(false)
    }

    /// Counts a call.
    ///
    /// # Errors
    /// Its number is one of the failing, or it is blocked. The failure is counted.
    pub fn begin_call_unless(&mut self, is_blocked: bool) -> Result<(), Failed>
        ensures fails { is_err result ≡ (fails_next self.old || is_blocked) }
        ensures plan { MatchResult result (λ _. self.new ≡ after_call self.old)
            (λ _. self.new ≡ after_failure self.old) }
        ensures faults { self.old.faults ≤ self.new.faults }
        ensures cause { OnErr result (Rose self.old.faults self.new.faults) }
    {
        let fails = self.failing.contains(&self.calls) || is_blocked;
        self.calls = self.calls.saturating_add(1);
        if fails {
            self.faults = self.faults.saturating_add(1);
            return Err(Failed);
        }
        Ok(())
    }
}
