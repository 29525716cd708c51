// How near each group is to one that has grown since an earlier partition, in arcs: from there on the names that can be walked may be
// others than they were. A group goes by its label, an arc by the state that it leads into.
ghost use Rattle.std.specs.Prelude.{◌≡◌, ◌<◌, ◌≤◌, length};
ghost use Rattle.base.specs.Limits.{state_limit, setting_limit};
ghost use Rattle.indexed.specs.Partitions.{Labelled};
ghost use Rattle.contexts.specs.Climbs.{Above};
ghost use Rattle.contexts.specs.Distances.{Spread, SpreadAt, SpreadFrom, Marking, MarkedAt, MarkedBelow, Lowering, Lowered};

use base::limits::{SETTING_LIMIT, STATE_LIMIT};
use suffixes::class_above;

// The group of v has distance 0 if it has grown: v was not in the group of its label.
fn mark_at(before: &[u16], groups: &[u16], dist: &mut [u8; STATE_LIMIT], v: usize)
    requires marking { Marking (length groups.now) before.now groups.now dist.old }
    requires inside { v < length groups.now }
    ensures { MarkedAt before.now groups.now dist.old dist.new v }
{
    let group = groups[v] as usize;
    if before[v] != before[group] {
        dist[group] = 0;
    }
}

// Groups that have grown since `before` have distance 0.
fn mark_grown(before: &[u16], groups: &[u16], dist: &mut [u8; STATE_LIMIT])
    requires marking { Marking (length groups.now) before.now groups.now dist.old }
    ensures { MarkedBelow (length groups.now) before.now groups.now dist.old
        dist.new }
{
    for v in 0..groups.len() {
        mark_at(before, groups, dist, v);
    }
}

// The distance of the source of the arc into v, by that of its target, if it is below j and below the one known; true where it
// was lowered.
fn lower_at(j: u8, parents: &[u16], groups: &[u16], dist: &mut [u8; STATE_LIMIT], v: usize) -> bool
    requires lowering { Lowering (length groups.now) parents.now groups.now dist.old }
    requires inside { v < length groups.now }
    ensures { Lowered (SpreadAt j parents.now groups.now dist.old v) dist.old
        dist.new result }
{
    let target = groups[v] as usize;
    let near = dist[target] + 1;
    if j <= near {
        return false;
    }
    let source = class_above(groups, parents, v);
    if dist[source] <= near {
        return false;
    }
    dist[source] = near;
    true
}

// One pass over all arcs, from the last down to the first: what an arc leads into comes after what it leaves, so that a pass
// carries distances up whole branches. True where any was lowered.
fn lower(j: u8, parents: &[u16], groups: &[u16], dist: &mut [u8; STATE_LIMIT]) -> bool
    requires lowering { Lowering (length groups.now) parents.now groups.now dist.old }
    ensures { Lowered
        (SpreadFrom 1 (length groups.now) j parents.now groups.now dist.old)
        dist.old dist.new result }
{
    let mut lowered = false;
    for v in (1..groups.len()).rev() {
        lowered |= lower_at(j, parents, groups, dist, v);
    }
    lowered
}

// The distances below j. Passes until one lowers nothing; none for j below 2.
pub fn distances(j: usize, parents: &[u16], before: &[u16], groups: &[u16]) -> [u8; STATE_LIMIT]
    requires few { length groups.now ≤ state_limit }
    requires above { Above (length groups.now) parents.now }
    requires before_size { length before.now ≡ length groups.now }
    requires labelled { Labelled (length groups.now) groups.now }
    requires limit { j ≤ setting_limit }
    ensures { Spread (length groups.now) j parents.now before.now groups.now
        result }
{
    let mut dist = [SETTING_LIMIT; STATE_LIMIT];
    mark_grown(before, groups, &mut dist);
    if j < 2 {
        return dist;
    }
    while lower(j as u8, parents, groups, &mut dist) {}
    dist
}
