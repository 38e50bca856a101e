//! Which calls of a folder in memory are to fail.
ghost use Rattle.std.specs.Prelude.{◌≡◌, Option};
ghost use Rattle.folder_model.specs.Plan.{added_for};

use std::alloc::{AllocError, Global};

/// A call that is to fail, by its number over all calls.
#[derive(Clone, Copy, Drop)]
pub struct Failing {
    pub call: u64,
    /// How many first bytes of its piece an append adds.
    pub added: u64,
}

/// How many calls there were, and how many of them were to change the folder, and which are to fail.
#[derive(Drop)]
pub struct CallPlan {
    calls: u64,
    changes: u64,
    fails: Vec<Failing>,
    stop: Option<u64>,
}

// How many bytes an append adds, if the call of that number is among those that are to fail.
fn added_for(fails: &[Failing], call: u64) -> Option<u64>
    ensures { result ≡ added_for fails.now call }
{
    for failing in fails {
        if failing.call == call {
            return Some(failing.added);
        }
    }
    None
}

impl CallPlan {
    ghost use Rattle.std.specs.Prelude.{◌≡◌, OnOk, OnErr};
    ghost use Rattle.folder_model.specs.Plan.{plan_in, new_plan, counted, counted_change, due, due_by_stop, with_append_failing, with_stop};

    pub fn new(alloc: Global) -> Self
        ensures { plan_in result ≡ new_plan }
    {
        CallPlan {
            calls: 0,
            changes: 0,
            fails: Vec::new(alloc),
            stop: None,
        }
    }

    pub fn count_call(&mut self)
        ensures { plan_in self.new ≡ counted (plan_in self.old) }
    {
        self.calls = self.calls.saturating_add(1);
    }

    pub fn count_change(&mut self)
        ensures { plan_in self.new ≡ counted_change (plan_in self.old) }
    {
        self.calls = self.calls.saturating_add(1);
        self.changes = self.changes.saturating_add(1);
    }

    // What is to be of the call at which all calls begin to fail, if it has come.
    fn due_by_stop(&self) -> Option<u64>
        ensures { result ≡ due_by_stop (plan_in self.now) }
    {
        match self.stop {
            Some(stop) => {
                if stop <= self.changes {
                    return Some(0);
                }
                None
            }
            None => None,
        }
    }

    /// If the call that was counted last is to fail, how many bytes it adds where it is an append.
    pub fn due(&self) -> Option<u64>
        ensures { result ≡ due (plan_in self.now) }
    {
        match added_for(self.fails.as_slice(), self.calls) {
            Some(added) => Some(added),
            None => self.due_by_stop(),
        }
    }

    /// A call is to fail, by its number from 1 on over all calls from now on.
    pub fn fail(&mut self, call: u64, added: u64) -> Result<(), AllocError>
        ensures ok { OnOk result (plan_in self.new ≡ with_append_failing (plan_in self.old) call added) }
        ensures err { OnErr result (plan_in self.new ≡ plan_in self.old) }
    {
        let call = self.calls.saturating_add(call);
        self.fails.push(Failing { call, added })?;
        Ok(())
    }

    /// All calls are to fail from the changing call of that number on.
    pub fn stop(&mut self, event: u64)
        ensures { plan_in self.new ≡ with_stop (plan_in self.old) event }
    {
        let event = self.changes.saturating_add(event);
        self.stop = match self.stop {
            Some(earlier) => Some(earlier.min(event)),
            None => Some(event),
        };
    }
}
