ghost use Rattle.std.specs.Prelude.{◌≡◌, ◌==◌, ◌||◌, nat_lt, Some, None, [], IsTrue};
ghost use Rattle.std.specs.List.{list_any};
ghost use Rattle.edge_memory.specs.Plan.{is_stopped, is_planned};

use crate::calls::has_number;
use base_types::NumberList;
use std::alloc::Global;

/// The numbers of the calls that are to fail, and the call after which every call fails.
#[derive(Debug, Drop)]
pub struct FailPlan {
    fail: NumberList,
    stop: Option<u64>,
}

impl FailPlan {
    ghost use Rattle.edge_memory.specs.FailPlan.{plan_of};

    pub fn new(fail: NumberList, stop: Option<u64>) -> FailPlan
        ensures { plan_of result ≡ record { fail = fail; stop = stop } }
    {
        FailPlan { fail, stop }
    }

    pub fn none(alloc: Global) -> FailPlan
        ensures { plan_of result ≡ record { fail = []; stop = None } }
    {
        FailPlan::new(NumberList::new(alloc), None)
    }

    /// Whether the call with this number is to fail.
    pub fn has(&self, number: u64) -> bool
        ensures { result ≡ is_planned (plan_of self.now) number }
    {
        has_number(&self.fail, number) || is_stopped(self.stop, number)
    }
}

fn is_stopped(stop: Option<u64>, number: u64) -> bool
    ensures { result ≡ is_stopped stop number }
{
    match stop {
        Some(stop) => stop < number,
        None => false,
    }
}
