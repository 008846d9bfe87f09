// Carrying a plan out from C: the progress record is lent to the call and advanced by one write.
// The checks and the write are the step's; its answer crosses as one number: the cause's in the lower half, the spot in the upper.
ghost use Rattle.marshalling.specs.Cells.{flag_of};
ghost use Rattle.tcam.specs.Carried.{CarryLeft};
ghost use Rattle.tcam.specs.ListedCarried.{ListedCarryLeft};

use marshalling::{carry, carry_listed};

// How far a plan is carried out: writes done, writes in all.
#[repr(C)]
#[derive(Clone, Copy)]
pub struct Progress {
    pub done: u32,
    pub total: u32,
}

// The next write of a plan, "finished", or a refusal: the record is advanced by a write that is done.
pub fn tcam_carry_out(
    table: &mut [u64],
    width: u32,
    rule: &[u64],
    edition: u32,
    plan: &[u32],
    progress: &mut Progress,
) -> u64
    ensures { CarryLeft width edition table.old plan.now rule.now progress.old result table.new progress.new }
{
    let done = progress.done;
    let total = progress.total;
    let carried = carry(table, width, rule, edition, plan, done, total);
    progress.done = carried.done;
    carried.result
}

// The same with a neighbour list lent, which a write leaves as that of the table after it; `refreshed` tells whether it was not that of the table before.
pub fn tcam_carry_out_listed(
    table: &mut [u64],
    width: u32,
    uncounted: u32,
    rule: &[u64],
    edition: u32,
    list: &mut [u16],
    plan: &[u32],
    progress: &mut Progress,
    refreshed: &mut u32,
) -> u64
    ensures { ListedCarryLeft width (flag_of uncounted) edition table.old plan.now rule.now list.old progress.old refreshed.old result table.new list.new progress.new refreshed.new }
{
    let done = progress.done;
    let total = progress.total;
    let carried = carry_listed(
        table, width, uncounted, rule, edition, list, plan, done, total, refreshed,
    );
    progress.done = carried.done;
    carried.result
}
