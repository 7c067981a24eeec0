//! Copies of a packet under way, on a stack.
ghost use Rattle.std.specs.Prelude.{◌≡◌, ◌+◌, ◌-◌, ◌<◌, ◌≤◌, [], ◌∷◌, ◌++◌, IfOk, length, map, OnOk};
ghost use Rattle.net_run.specs.Nets.{net_in};
ghost use Rattle.net_run.specs.DepartedOf.{departed_of, way_of};
ghost use Rattle.net_run.specs.Ends.{behind, ends_from, followed};
ghost use Rattle.net_run.specs.RunCounts.{runs_from, runs_of_all};
ghost use Rattle.net_run.specs.UnderWay.{stack_ends, stack_runs};
ghost use Rattle.std.specs.List.{flat_map};

use crate::departed::Departed;
use crate::net::Net;
use cocoon_num::NoMemory;
use p4_ir::LinkEnd;
use std::alloc::Global;

/// A copy that stands before a port of a switch, or at a host.
#[derive(Drop)]
pub(crate) struct Standing {
    pub(crate) at: LinkEnd,
    /// The members of groups for which copies were made on the way, in order.
    pub(crate) choices: Vec<u64>,
    pub(crate) bytes: Vec<u8>,
    /// How many more visits it may make.
    pub(crate) visits: u32,
}

/// The choices, and the member behind them, if there is one.
fn choices_with(alloc: Global, choices: &[u64], member: Option<u64>) -> Result<Vec<u64>, NoMemory>
    ensures { IfOk result (λ v. v.items ≡ choices.now ++ way_of member) }
{
    let mut all = choices.to_vec(alloc)?;
    match member {
        Some(member) => {
            all.push(member)?;
            Ok(all)
        }
        None => Ok(all),
    }
}

impl Standing {
    /// Puts on the stack what departed from a switch that this copy visited, if a link leads on from there.
    fn push_next(
        &self,
        alloc: Global,
        net: &Net,
        switch: u16,
        departed: Departed,
        stack: &mut Vec<Standing>,
    ) -> Result<(), NoMemory>
        requires { 0 < self.now.visits }
        ensures ends { OnOk result (stack_ends (net_in net.now) stack.new.items
            ≡ behind self.now.choices.items (followed (net_in net.now)
            (ends_from (net_in net.now) (self.now.visits - 1)) switch (departed_of departed))
            ++ stack_ends (net_in net.now) stack.old.items) }
        ensures runs { OnOk result (stack_runs (net_in net.now) stack.new.items
            ≡ runs_of_all (net_in net.now) (runs_from (net_in net.now) (self.now.visits - 1))
            switch (departed_of departed ∷ []) + stack_runs (net_in net.now) stack.old.items) }
        ensures length { OnOk result (length stack.new.items ≤ length stack.old.items + 1) }
    {
        let Some(at) = net.link(switch, departed.port) else {
            return Ok(());
        };
        let choices = choices_with(alloc, &self.choices, departed.member)?;
        stack.push(Standing {
            at,
            choices,
            bytes: departed.bytes,
            visits: self.visits - 1,
        })?;
        Ok(())
    }

    /// Puts on the stack all that departed from a switch that this copy visited, with the first on top. The list of what departed
    /// is left empty.
    pub(crate) fn push_all(
        &self,
        alloc: Global,
        net: &Net,
        switch: u16,
        departed: Vec<Departed>,
        stack: &mut Vec<Standing>,
    ) -> Result<Vec<Departed>, NoMemory>
        requires { 0 < self.now.visits }
        ensures ends { OnOk result (stack_ends (net_in net.now) stack.new.items
            ≡ behind self.now.choices.items (flat_map (followed (net_in net.now)
            (ends_from (net_in net.now) (self.now.visits - 1)) switch)
            (map departed_of departed.items))
            ++ stack_ends (net_in net.now) stack.old.items) }
        ensures runs { OnOk result (stack_runs (net_in net.now) stack.new.items
            ≡ runs_of_all (net_in net.now) (runs_from (net_in net.now) (self.now.visits - 1))
            switch (map departed_of departed.items)
            + stack_runs (net_in net.now) stack.old.items) }
        ensures length { OnOk result
            (length stack.new.items ≤ length stack.old.items + length departed.items) }
    {
        let mut left = departed;
        while let Some(last) = left.pop() {
            self.push_next(alloc, net, switch, last, stack)?;
        }
        Ok(left)
    }
}
