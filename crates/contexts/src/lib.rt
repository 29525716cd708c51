// The joining of a book's prefix tree by the context rule: states with the same last h names out of whose groups k - h names lead
// in common are in one group, and no group has arcs of one name to two groups.
#![tactic(auto)]

pub mod ahead;
pub mod chains;
mod copies;
pub mod distances;
pub mod joins;
pub mod view;

ghost use Rattle.std.specs.Prelude.{◌≡◌, ◌+◌, ◌<◌, ◌≤◌, length};
ghost use Rattle.base.specs.Limits.{setting_limit};
ghost use Rattle.base.specs.Lists.{numbers_from};
ghost use Rattle.indexed.specs.Partitions.{Refines, Labelled};
ghost use Rattle.indexed.specs.Passes.{ContextJoined};
ghost use Rattle.partition.specs.Forests.{Forest, roots_of};
ghost use Rattle.worklist.specs.Settling.{NoLists};
ghost use Rattle.contexts.specs.Climbs.{Climbed, ClimbedAt, ClimbedBelow, ByRoots};
ghost use Rattle.contexts.specs.Rounds.{RoundReady};

use crate::copies::copy;
use base::limits::STATE_LIMIT;
use indexed::Tree;
use joins::sweep;
use partition::forest;
use suffixes::{by_suffix, suffix_classes};
use worklist::forks::{Forks, start};

// Joins the groups of the ancestors of v and w, the first of each, the second, and so on up to the m-th.
fn climb(m: usize, tree: Tree, groups: &mut [u16], v: usize, w: usize)
    requires size { length groups.old ≡ length tree.parents.now }
    requires forest { Forest (length groups.old) groups.old }
    requires v_inside { v < length groups.old }
    requires w_inside { w < length groups.old }
    ensures { ByRoots (length groups.old) (Climbed (length groups.old) m tree.entry.parents.now v w)
        groups.old groups.new }
{
    let mut a = v;
    let mut b = w;
    for _ in 0..m {
        a = tree.parents[a] as usize;
        b = tree.parents[b] as usize;
        let _ = forest::join(groups, a, b);
    }
}

// The climb of v and its start. Where the parents of both have one start too, the parents' climbs join what this one would, so
// there is none.
fn climb_at(m: usize, tree: Tree, starts: &[u16], groups: &mut [u16], v: usize)
    requires size { length groups.old ≡ length tree.parents.now }
    requires starts_labelled { Labelled (length groups.old) starts.now }
    requires forest { Forest (length groups.old) groups.old }
    requires v_inside { v < length groups.old }
    ensures { ByRoots (length groups.old)
        (ClimbedAt (length groups.old) m tree.entry.parents.now starts.now v) groups.old
        groups.new }
{
    let start = starts[v] as usize;
    let a = tree.parents[v] as usize;
    let b = tree.parents[start] as usize;
    if starts[a] != starts[b] {
        climb(m, tree, groups, v, start);
    }
}

// The climbs of all states, each with its start.
fn climb_all(m: usize, tree: Tree, starts: &[u16], groups: &mut [u16])
    requires size { length groups.old ≡ length tree.parents.now }
    requires starts_labelled { Labelled (length groups.old) starts.now }
    requires forest { Forest (length groups.old) groups.old }
    requires starts_joined { Refines (length groups.old) starts.now (roots_of groups.old) }
    ensures { ByRoots (length groups.old)
        (ClimbedBelow (length groups.old) (length groups.old) m tree.entry.parents.now starts.now)
        groups.old groups.new }
{
    for v in 0..starts.len() {
        climb_at(m, tree, starts, groups, v);
    }
}

// The climbs of all states, each with the label of its group as it was at first. Its array is in no frame but its own.
#[inline(never)]
fn climb_starts(m: usize, tree: Tree, groups: &mut [u16])
    requires size { length groups.old ≡ length tree.parents.now }
    requires labelled { Labelled (length groups.old) groups.old }
    ensures { ClimbedBelow (length groups.old) (length groups.old) m tree.entry.parents.now groups.old
        groups.old groups.new }
{
    let n = groups.len();
    let mut starts = [0u16; STATE_LIMIT];
    copy(groups, &mut starts[..n]);
    climb_all(m, tree, &starts[..n], groups);
    forest::flatten(groups);
}

// Sweeps until one joins nothing. Forks are closed and the lists of arcs filled at first, and the sweeps keep them so. They take
// classes by one name more than h: that of an arc. The first sweep compares what has grown since every state was by itself, in
// `before`, each other what has grown since the last.
fn close_contexts(
    h: usize,
    m: usize,
    tree: Tree,
    numbers: &[u16],
    before: &mut [u16],
    groups: &mut [u16],
    forks: &mut Forks,
)
    requires ready { RoundReady (length groups.old) h m tree.parents.now tree.names.now groups.old }
    requires own_numbers { numbers.now ≡ numbers_from (length groups.old) 0 }
    requires own_before { before.old ≡ numbers_from (length groups.old) 0 }
    requires empty { NoLists forks.old.lists.links forks.old.lists.heads }
    ensures { ContextJoined (length groups.old) (h + m) h tree.entry.parents.now tree.entry.names.now groups.new }
{
    let n = groups.len();
    let mut classes = [0u16; STATE_LIMIT];
    suffix_classes(h + 1, tree, &mut classes[..n]);
    start(tree.parents, tree.names, numbers, groups, forks);
    while sweep(m, tree, numbers, &classes[..n], before, groups, forks) {}
}

// The sweeps, with the states' own numbers, and with lists and a queue that are empty at first. Its arrays are in no frame but its own, as
// the stack is small.
#[inline(never)]
fn run_rounds(h: usize, m: usize, tree: Tree, groups: &mut [u16])
    requires ready { RoundReady (length groups.old) h m tree.parents.now tree.names.now groups.old }
    ensures { ContextJoined (length groups.old) (h + m) h tree.entry.parents.now tree.entry.names.now groups.new }
{
    let n = groups.len();
    let mut numbers = [0u16; STATE_LIMIT];
    partition::own(&mut numbers[..n]);
    let mut before = numbers;
    let mut forks = Forks::new();
    close_contexts(
        h,
        m,
        tree,
        &numbers[..n],
        &mut before[..n],
        groups,
        &mut forks,
    );
}

// Joins by the context rule until it applies no more: not at all where no two states have the same last k names.
pub fn join_by_context(k: usize, h: usize, tree: Tree, groups: &mut [u16])
    requires size { length groups.old ≡ length tree.parents.now }
    requires some { 0 < h }
    requires within { h ≤ k }
    requires limit { k ≤ setting_limit }
    ensures { ContextJoined (length groups.old) k h tree.entry.parents.now tree.entry.names.now groups.new }
{
    if !by_suffix(k, tree, groups) {
        return;
    }
    let m = k - h;
    if m == 0 {
        return;
    }
    climb_starts(m, tree, groups);
    if m == 1 {
        return;
    }
    run_rounds(h, m, tree, groups);
}
