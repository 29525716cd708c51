// The comparisons of a sweep, and the joins that they lead to. Each arc is compared with those further down its chain; where m - 1
// names in succession can be walked after both, their sources are joined, and forks are closed at once, so that what comes later is
// looked for among groups that are as large as they can be. The chains stay those of the groups at the beginning of the sweep.
ghost use Rattle.std.specs.Prelude.{◌≡◌, true, ◌<◌, ◌≤◌, length};
ghost use Rattle.base.specs.Limits.{setting_limit};
ghost use Rattle.base.specs.Lists.{numbers_from};
ghost use Rattle.indexed.specs.Partitions.{Refines};
ghost use Rattle.partition.specs.Forests.{roots_of};
ghost use Rattle.worklist.specs.Forks.{Kept};
ghost use Rattle.contexts.specs.Ahead.{Telling};
ghost use Rattle.contexts.specs.Sweeps.{AllLeave};
ghost use Rattle.contexts.specs.Joins.{Live, Apart, Chains, PairJoined, ChainJoined, PairsJoined, SweptBy};

use crate::ahead::names_ahead;
use crate::chains::{Arcs, Marks};
use crate::copies::copy;
use crate::distances::distances;
use crate::view::View;
use base::limits::STATE_LIMIT;
use indexed::Tree;
use partition::forest;
use worklist::forks::{Forks, join_two};
use worklist::lists::arc_of;
use worklist::search::lead_on;

// What a sweep compares: the sets of names that lead out of the groups at first, of one name and of two in succession, and the chains
// of arcs. The states have numbers of their own for the closing of forks.
// Stays: (d) Live and Refines stand in the contracts of three methods: Live has `rows`, which no program keeps, so a ghost field would
// have to hide them, and groups and forks would have to be lent as one.
#[derive(Clone, Copy)]
struct Pairs<'a, 'b> {
    view: View<'a>,
    numbers: &'b [u16],
    next: &'b [u64; STATE_LIMIT],
    ahead: &'b [u16; STATE_LIMIT],
    links: &'b [u16; STATE_LIMIT],
    ghost own: { numbers.now ≡ numbers_from (length view.old.now) 0 },
    ghost leave: { AllLeave (length view.old.now) view.tree.parents.now view.tree.names.now view.old.now next.now },
    ghost telling: { Telling (length view.old.now) view.j view.tree.parents.now view.tree.names.now view.old.now ahead.now },
    ghost chains: { Chains (length view.old.now) links.now },
    ghost some: { 0 < view.j },
}

impl Pairs<'_, '_> {
    // Whether the groups that arcs v and w led into at first tell by their sets that no names can be walked after both.
    fn apart(&self, v: usize, w: usize) -> bool
        requires v_inside { v < length self.now.view.old.now }
        requires w_inside { w < length self.now.view.old.now }
        ensures { result ≡ true → Apart self.now.view.old.now self.now.next.now self.now.ahead.now v w }
    {
        let into = self.view.old[v] as usize;
        let other = self.view.old[w] as usize;
        self.ahead[into] & self.ahead[other] == 0 || self.next[into] & self.next[other] == 0
    }

    // Joins the sources of arcs v and w where j names in succession can be walked after both, and closes forks; true where they were
    // in two groups. The sets of the groups at first tell most pairs apart; the names are looked for among the groups as they are.
    fn join_pair(&self, groups: &mut [u16], forks: &mut Forks, v: usize, w: usize) -> bool
        requires size { length groups.old ≡ length self.now.view.old.now }
        requires live { Live (length groups.old) self.now.view.tree.parents.now self.now.view.tree.names.now
            self.now.numbers.now groups.old forks.old.lists.links forks.old.lists.heads
            forks.old.queue.firsts forks.old.queue.seconds }
        requires coarser { Refines (length groups.old) self.now.view.old.now (roots_of groups.old) }
        requires v_inside { v < length groups.old }
        requires w_inside { w < length groups.old }
        ensures pair { PairJoined (length groups.old) self.now.view.j self.now.view.tree.parents.now
            self.now.view.tree.names.now self.now.view.old.now v w (roots_of groups.old) (roots_of groups.new)
            result }
        ensures live { Live (length groups.old) self.now.view.tree.parents.now self.now.view.tree.names.now
            self.now.numbers.now groups.new forks.new.lists.links forks.new.lists.heads
            forks.new.queue.firsts forks.new.queue.seconds }
    {
        if self.apart(v, w) {
            return false;
        }
        let View { j, tree, .. } = self.view;
        let x = forest::root(groups, tree.parents[v] as usize);
        let y = forest::root(groups, tree.parents[w] as usize);
        if x == y {
            return false;
        }
        let into = forest::root(groups, v);
        let other = forest::root(groups, w);
        if !lead_on(j, into, other, tree.names, groups, &forks.lists) {
            return false;
        }
        join_two(tree.names, self.numbers, groups, forks, x, y);
        true
    }

    // Joins the source of arc v with those of the arcs further down its chain after which j names in succession can be walked as after
    // v; true where anything was joined.
    fn join_chain(&self, groups: &mut [u16], forks: &mut Forks, v: usize) -> bool
        requires size { length groups.old ≡ length self.now.view.old.now }
        requires live { Live (length groups.old) self.now.view.tree.parents.now self.now.view.tree.names.now
            self.now.numbers.now groups.old forks.old.lists.links forks.old.lists.heads
            forks.old.queue.firsts forks.old.queue.seconds }
        requires coarser { Refines (length groups.old) self.now.view.old.now (roots_of groups.old) }
        requires inside { v < length groups.old }
        ensures chain { ChainJoined (length groups.old) self.now.view.j self.now.view.tree.parents.now
            self.now.view.tree.names.now self.now.view.old.now self.now.links.now v (roots_of groups.old)
            (roots_of groups.new) result }
        ensures live { Live (length groups.old) self.now.view.tree.parents.now self.now.view.tree.names.now
            self.now.numbers.now groups.new forks.new.lists.links forks.new.lists.heads
            forks.new.queue.firsts forks.new.queue.seconds }
    {
        let mut joined = false;
        let mut at = arc_of(self.links[v]);
        while let Some(w) = at {
            joined |= self.join_pair(groups, forks, v, w);
            at = arc_of(self.links[w]);
        }
        joined
    }

    // Compares all arcs; true where anything was joined.
    fn join_all(&self, groups: &mut [u16], forks: &mut Forks) -> bool
        requires size { length groups.old ≡ length self.now.view.old.now }
        requires live { Live (length groups.old) self.now.view.tree.parents.now self.now.view.tree.names.now
            self.now.numbers.now groups.old forks.old.lists.links forks.old.lists.heads
            forks.old.queue.firsts forks.old.queue.seconds }
        requires coarser { Refines (length groups.old) self.now.view.old.now (roots_of groups.old) }
        ensures pairs { PairsJoined (length groups.old) (length groups.old) self.now.view.j
            self.now.view.tree.parents.now self.now.view.tree.names.now self.now.view.old.now self.now.links.now
            (roots_of groups.old) (roots_of groups.new) result }
        ensures live { Live (length groups.old) self.now.view.tree.parents.now self.now.view.tree.names.now
            self.now.numbers.now groups.new forks.new.lists.links forks.new.lists.heads
            forks.new.queue.firsts forks.new.queue.seconds }
    {
        let mut joined = false;
        for v in 0..self.view.old.len() {
            joined |= self.join_chain(groups, forks, v);
        }
        joined
    }
}

// The sweep for m names, by the chains of the groups as they are at first; true where anything was joined. `before` has the groups
// that the last sweep went by, and gets those of this one. Its arrays are in no frame but its own.
#[inline(never)]
pub fn sweep(
    m: usize,
    tree: Tree,
    numbers: &[u16],
    classes: &[u16],
    before: &mut [u16],
    groups: &mut [u16],
    forks: &mut Forks,
) -> bool
    requires size { length groups.old ≡ length tree.parents.now }
    requires own { numbers.now ≡ numbers_from (length groups.old) 0 }
    requires classes_size { length classes.now ≡ length groups.old }
    requires before_size { length before.old ≡ length groups.old }
    requires kept { Kept (length groups.old) tree.parents.now tree.names.now numbers.now groups.old
        forks.old.lists.links forks.old.lists.heads forks.old.queue.firsts forks.old.queue.seconds 0 }
    requires some { 1 < m }
    requires limit { m ≤ setting_limit }
    ensures swept { SweptBy (length groups.old) m tree.entry.parents.now tree.entry.names.now classes.now
        before.old before.new groups.old groups.new result }
    ensures kept { Kept (length groups.old) tree.entry.parents.now tree.entry.names.now numbers.now
        groups.new forks.new.lists.links forks.new.lists.heads forks.new.queue.firsts forks.new.queue.seconds 0 }
{
    let j = m - 1;
    let dist = distances(j, tree.parents, before, groups);
    copy(groups, before);
    let view = View {
        j,
        tree,
        old: before,
    };
    let mut arcs = Arcs {
        next: [0; STATE_LIMIT],
        links: [0; STATE_LIMIT],
        heads: [0; STATE_LIMIT],
    };
    arcs.link_all(&Marks {
        view,
        classes,
        dist: &dist,
    });
    let ahead = names_ahead(view, &arcs.next);
    let pairs = Pairs {
        view,
        numbers,
        next: &arcs.next,
        ahead: &ahead,
        links: &arcs.links,
    };
    let joined = pairs.join_all(groups, forks);
    forest::flatten(groups);
    joined
}
