// The sweep: groups with the same last names out of which m names in succession lead in common are joined. Arcs are compared, the
// first of each name out of each group, by classes. The sources of two arcs of a class have the same last names, and are joined
// where m - 1 names in succession can be walked after both arcs. An arc goes by the state that it leads into.
//
// Most pairs are left out: an arc is near where a group that has grown since the last sweep is fewer than m - 1 arcs after it, else
// far, and what can be walked after two far arcs was compared by the last sweep. So the chain of a class has its near arcs alone;
// each of them is compared with those before it, and each far arc with all of them.
ghost use Rattle.std.specs.Prelude.{◌≡◌, ℕ, ◌+◌, ◌<◌, ◌≤◌, length, get_or};
ghost use Rattle.base.specs.Limits.{state_limit};
ghost use Rattle.contexts.specs.Sweeps.{Placed, ArcsLinked, waiting, FarLinked, ArcsReady};

use crate::view::View;
use base::limits::{NO_STATE, STATE_LIMIT};
use base::sets::with_name;
use suffixes::class_above;

// What a far arc has instead of a link until the chains are whole. No arc has this number.
// Stays: (a) fixed memory, and ArcsLinked says it as `waiting`; an Option with a third case would take twice the bytes of a link.
const WAITING: u16 = NO_STATE + 1;

// What the arcs of a sweep are linked by: the classes of the states, of one name more than the sources have in common, and how near
// the groups are.
#[derive(Clone, Copy)]
pub struct Marks<'a, 'b> {
    pub view: View<'a>,
    pub classes: &'b [u16],
    pub dist: &'b [u8; STATE_LIMIT],
    pub ghost size: { length classes.now ≡ length view.old.now },
}

// The set of names that lead out of each group, in `next`, and the chains of near arcs: the last arc of each class, and the one before
// each, plus one, 0 where there is none.
// Stays: (a) fixed memory, and Chained says it so; an Option of u16 would take twice the bytes. What is read is an Option: `arc_of`.
#[derive(Drop)]
pub struct Arcs {
    pub next: [u64; STATE_LIMIT],
    pub links: [u16; STATE_LIMIT],
    pub heads: [u16; STATE_LIMIT],
    pub ghost size: { length links ≡ state_limit },
}

impl Arcs {
    // Puts arc v, the first of its name out of its group, into the chain of its class, if it has one and is near; marks it, if it
    // is far.
    fn place(&mut self, by: &Marks, v: usize)
        requires inside { v < length by.now.view.old.now }
        ensures placed { Placed by.now.view.j v by.now.classes.now by.now.view.old.now by.now.dist.now
            self.old.links self.old.heads self.new.links self.new.heads }
        ensures next { self.new.next ≡ self.old.next }
    {
        if NO_STATE <= by.classes[v] {
            return;
        }
        let group = by.view.old[v] as usize;
        if by.view.j <= by.dist[group] as usize {
            self.links[v] = WAITING;
            return;
        }
        let class = by.classes[v] as usize;
        self.links[v] = self.heads[class];
        self.heads[class] = (v + 1) as u16;
    }

    // One arc more, linked where it is the first of its name out of its group: its name goes into the group's set, and the arc into
    // the chain of its class.
    fn link(&mut self, by: &Marks, v: usize)
        requires no_root { 0 < v }
        requires inside { v < length by.now.view.old.now }
        requires so_far { ArcsLinked v by.now.view.j by.now.view.tree.parents.now by.now.view.tree.names.now
            by.now.classes.now by.now.view.old.now by.now.dist.now self.old.next self.old.links self.old.heads }
        ensures { ArcsLinked (v + 1) by.now.view.j by.now.view.tree.parents.now by.now.view.tree.names.now
            by.now.classes.now by.now.view.old.now by.now.dist.now self.new.next self.new.links self.new.heads }
    {
        let from = class_above(by.view.old, by.view.tree.parents, v);
        let known = self.next[from];
        let all = with_name(known, by.view.tree.names[v]);
        if all != known {
            self.next[from] = all;
            self.place(by, v);
        }
    }

    // All arcs, the near ones linked.
    pub fn link_near(&mut self, by: &Marks)
        requires none { ArcsLinked 1 by.now.view.j by.now.view.tree.parents.now by.now.view.tree.names.now
            by.now.classes.now by.now.view.old.now by.now.dist.now self.old.next self.old.links self.old.heads }
        ensures { ArcsLinked (length by.now.view.old.now) by.now.view.j by.now.view.tree.parents.now by.now.view.tree.names.now
            by.now.classes.now by.now.view.old.now by.now.dist.now self.new.next self.new.links self.new.heads }
    {
        for v in 1..by.view.old.len() {
            self.link(by, v);
        }
    }

    // Links the far arcs, when all near arcs are in their chains: a far arc leads to the last near arc of its class.
    pub fn link_far(&mut self, classes: &[u16])
        requires few { length classes.now ≤ state_limit }
        requires classed { (v : ℕ) → get_or self.old.links v 0 ≡ waiting → get_or classes.now v 0 < state_limit }
        ensures links { FarLinked (length classes.now) classes.now self.old.heads self.old.links self.new.links }
        ensures heads { self.new.heads ≡ self.old.heads }
        ensures next { self.new.next ≡ self.old.next }
    {
        for (v, class) in classes.iter().enumerate() {
            if self.links[v] == WAITING {
                self.links[v] = self.heads[*class as usize];
            }
        }
    }

    // The arcs out of the groups of a sweep, by the classes of the states that they lead into, and how near their groups are; none is
    // linked at first.
    pub fn link_all(&mut self, by: &Marks)
        requires none { ArcsLinked 1 by.now.view.j by.now.view.tree.parents.now by.now.view.tree.names.now
            by.now.classes.now by.now.view.old.now by.now.dist.now self.old.next self.old.links self.old.heads }
        ensures { ArcsReady (length by.now.view.old.now) by.now.view.j by.now.view.tree.parents.now by.now.view.tree.names.now
            by.now.classes.now by.now.view.old.now by.now.dist.now self.new.next self.new.links self.new.heads }
    {
        self.link_near(by);
        self.link_far(by.classes);
    }
}
