// A partition as a forest: each state has a state above it, lower than itself, or is a root, and a group goes by its root.
// Stays: (d) the forest is a slice, and `Forest` stands in the contracts: `groups` is a partition before the joins and after `flatten`, and
// a forest only between, so that a struct would be made and taken apart around each run of joins.
ghost use Rattle.std.specs.Prelude.{◌≡◌, ◌<◌, ◌≤◌, length, get_or, MatchOption};
ghost use Rattle.base.specs.Limits.{state_limit};
ghost use Rattle.partition.specs.Forests.{Forest, roots_of, FoundRoot, United, JoinedRoots};

use std::cmp::Ordering;

// The root of a state. Every other state on the way is put below the second above it, so that later ways are shorter.
pub fn find(above: &mut [u16], v: usize) -> usize
    requires forest { Forest (length above.old) above.old }
    requires inside { v < length above.old }
    ensures { FoundRoot (length above.old) above.old above.new v result }
{
    let mut at = v;
    let mut up = above[at] as usize;
    while up != at {
        let next = above[up];
        above[at] = next;
        at = next as usize;
        up = above[at] as usize;
    }
    at
}

// The root of a state, with the forest left as it is.
pub fn root(above: &[u16], v: usize) -> usize
    requires forest { Forest (length above.now) above.now }
    requires inside { v < length above.now }
    ensures value { result ≡ get_or (roots_of above.now) v 0 }
    ensures inside { result < length above.now }
{
    let mut w = v;
    let mut up = above[w] as usize;
    while up != w {
        w = up;
        up = above[w] as usize;
    }
    w
}

// Puts root y below root x.
pub fn unite(above: &mut [u16], x: usize, y: usize)
    requires forest { Forest (length above.old) above.old }
    requires few { length above.old ≤ state_limit }
    requires inside { y < length above.old }
    requires lower { x < y }
    requires x_root { get_or above.old x 0 ≡ x }
    requires y_root { get_or above.old y 0 ≡ y }
    ensures { United (length above.old) x y above.old above.new }
{
    above[y] = x as u16;
}

// Two groups by their roots: the higher goes into the lower.
#[derive(Drop)]
pub struct Roots {
    pub to: usize,
    pub from: usize,
}

// Makes the groups of two states one; none where they were one already.
pub fn join(above: &mut [u16], v: usize, w: usize) -> Option<Roots>
    requires forest { Forest (length above.old) above.old }
    requires few { length above.old ≤ state_limit }
    requires v_inside { v < length above.old }
    requires w_inside { w < length above.old }
    ensures { MatchOption result
        (JoinedRoots (length above.old) above.old above.new v w (get_or (roots_of above.old) v 0) (get_or (roots_of above.old) v 0))
        (λ roots. (roots.to < roots.from)
        × JoinedRoots (length above.old) above.old above.new v w roots.to roots.from) }
{
    let x = find(above, v);
    let y = find(above, w);
    match x.cmp(&y) {
        Ordering::Less => {
            unite(above, x, y);
            Some(Roots { to: x, from: y })
        }
        Ordering::Greater => {
            unite(above, y, x);
            Some(Roots { to: y, from: x })
        }
        Ordering::Equal => None,
    }
}

// Puts every state right below its root: the partition.
pub fn flatten(above: &mut [u16])
    requires forest { Forest (length above.old) above.old }
    ensures { above.new ≡ roots_of above.old }
{
    for v in 0..above.len() {
        let up = above[v] as usize;
        above[v] = above[up];
    }
}
