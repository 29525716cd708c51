// A search on the lists of arcs that are kept for closing forks: for each group one arc of each name, by ascending name.
ghost use Rattle.std.specs.Prelude.{◌≡◌, true, ◌↔◌, List, ℕ, ◌-◌, ◌<◌, ◌≤◌, length, get_or};
ghost use Rattle.base.specs.Limits.{state_limit};
ghost use Rattle.indexed.specs.Trees.{Arrays};
ghost use Rattle.indexed.specs.Partitions.{Share};
ghost use Rattle.partition.specs.Forests.{Forest, roots_of};
ghost use Rattle.worklist.specs.Lists.{plus_one};
ghost use Rattle.worklist.specs.Forks.{ForkLists};
ghost use Rattle.worklist.specs.Searches.{Past, ShareAfter};

use crate::lists::{Lists, arc_of};
use partition::forest;

// Where a list goes on from arc u: after it where its name is no higher than another, else at it.
fn past(u: usize, name: u8, names: &[u8], lists: &Lists) -> Option<usize>
    requires inside { u < length names.now }
    requires few { length names.now ≤ state_limit }
    ensures { Past names.now lists.now.links u name (plus_one result) }
{
    if names[u] <= name {
        return arc_of(lists.links[u]);
    }
    Some(u)
}

// Whether two arcs have one name and after both j - 1 more names can be walked in succession.
#[cycle(lead_after_lead_on)]
fn lead_after(j: usize, u: usize, w: usize, names: &[u8], groups: &[u16], lists: &Lists) -> bool
    requires forest { Forest (length groups.now) groups.now }
    requires lists { (parents : List ℕ) × Arrays (length groups.now) parents names.now
        × ForkLists (length groups.now) parents names.now (roots_of groups.now) lists.now.links lists.now.heads }
    requires u_inside { u < length groups.now }
    requires w_inside { w < length groups.now }
    requires some { 0 < j }
    ensures { (parents : List ℕ) → Arrays (length groups.now) parents names.now →
        ForkLists (length groups.now) parents names.now (roots_of groups.now)
        lists.now.links lists.now.heads →
        (result ≡ true) ↔ ShareAfter (length groups.now) parents names.now (roots_of groups.now)
        (j - 1) u w }
{
    if names[u] != names[w] {
        return false;
    }
    if j < 2 {
        return true;
    }
    let x = forest::root(groups, u);
    let y = forest::root(groups, w);
    lead_on(j - 1, x, y, names, groups, lists)
}

// Whether j names in succession lead out of two groups, by the lists of their arcs. A group goes by its root.
#[cycle(lead_after_lead_on)]
pub fn lead_on(j: usize, x: usize, y: usize, names: &[u8], groups: &[u16], lists: &Lists) -> bool
    requires forest { Forest (length groups.now) groups.now }
    requires lists { (parents : List ℕ) × Arrays (length groups.now) parents names.now
        × ForkLists (length groups.now) parents names.now (roots_of groups.now) lists.now.links lists.now.heads }
    requires x_root { get_or (roots_of groups.now) x 0 ≡ x }
    requires y_root { get_or (roots_of groups.now) y 0 ≡ y }
    requires x_inside { x < length groups.now }
    requires y_inside { y < length groups.now }
    requires some { 0 < j }
    ensures { (parents : List ℕ) → Arrays (length groups.now) parents names.now →
        ForkLists (length groups.now) parents names.now (roots_of groups.now)
        lists.now.links lists.now.heads →
        (result ≡ true) ↔ Share (length groups.now) parents names.now (roots_of groups.now) j x
        y }
{
    let mut first = arc_of(lists.heads[x]);
    let mut second = arc_of(lists.heads[y]);
    while let (Some(u), Some(w)) = (first, second) {
        if lead_after(j, u, w, names, groups, lists) {
            return true;
        }
        first = past(u, names[w], names, lists);
        second = past(w, names[u], names, lists);
    }
    false
}
