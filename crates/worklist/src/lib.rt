// Joins until closed, by a queue of pairs of states. For each group one arc of each key is kept, in lists by ascending key; where
// two groups become one their lists are merged, and two arcs of one key put a pair into the queue. There are three kinds of arcs:
// along the tree's arcs by their names, and two sets of keys against them, of which the second may be missing.
#![tactic(auto)]

pub mod arcs;
pub mod forks;
mod kinds;
pub mod lists;
pub mod search;

ghost use Rattle.std.specs.Prelude.{◌≡◌, List, ℕ, ◌<◌, length, option_copied};
ghost use Rattle.base.specs.Limits.{state_limit};
ghost use Rattle.partition.specs.Forests.{Forest, roots_of};
ghost use Rattle.worklist.specs.Keys.{given_keys};
ghost use Rattle.worklist.specs.Settling.{RoundReady, RoundClosed, JoinedUntil};
ghost use Rattle.worklist.specs.Kinds.{ReadyBy, NoArcs, FilledBy, ListedBy, MergedBy, SettlingBy, SettledBy};

use crate::kinds::{Kinds, Rules};
use partition::forest;
use partition::forest::Roots;

// Puts all arcs of three kinds into their lists, of two where there is no second set of keys.
fn fill_all(rules: Rules, groups: &[u16], kinds: &mut Kinds)
    requires ready { ReadyBy (length groups.now) rules groups.now }
    requires empty { NoArcs kinds.old }
    ensures { FilledBy (length groups.now) rules.entry groups.now kinds.old kinds.new }
{
    kinds
        .forks
        .fill(rules.parents, rules.forks(), groups, &mut kinds.queue);
    kinds
        .backs
        .fill(rules.numbers, rules.backs(), groups, &mut kinds.queue);
    if let Some(others) = rules.others() {
        kinds
            .others
            .fill(rules.numbers, others, groups, &mut kinds.queue);
    }
}

// Merges the lists of two groups, of all kinds.
fn merge_all(rules: Rules, kinds: &mut Kinds, to: usize, from: usize)
    requires listed { (rows1 rows2 rows3 : List ℕ) ×
        ListedBy (length rules.parents.now) rules rows1 rows2 rows3 kinds.old }
    requires lower { to < from }
    requires inside { from < state_limit }
    ensures { (rows1 rows2 rows3 : List ℕ) →
        ListedBy (length rules.entry.parents.now) rules.entry rows1 rows2 rows3 kinds.old →
        MergedBy (length rules.entry.parents.now) rules.entry rows1 rows2 rows3 to from kinds.old kinds.new }
{
    kinds.forks.merge(rules.forks(), &mut kinds.queue, to, from);
    kinds.backs.merge(rules.backs(), &mut kinds.queue, to, from);
    if let Some(others) = rules.others() {
        kinds.others.merge(others, &mut kinds.queue, to, from);
    }
}

// Joins pair after pair, until none is left in the queue.
fn settle(rules: Rules, groups: &mut [u16], kinds: &mut Kinds)
    requires forest { Forest (length rules.parents.now) groups.old }
    requires settling { SettlingBy (length rules.parents.now) rules (roots_of groups.old) (roots_of groups.old) kinds.old 0 }
    ensures { SettledBy (length rules.entry.parents.now) rules.entry groups.old groups.new }
{
    let mut done = 0;
    while let Some((v, w)) = kinds.queue.pair(done) {
        if let Some(Roots { to, from }) = forest::join(groups, v, w) {
            merge_all(rules, kinds, to, from);
        }
        done += 1;
    }
}

// Joins groups until the partition is closed under forks and under both sets of keys against the arcs, or under one where there is
// no other. Where no pair is queued the partition is closed as it is, and is left.
pub fn close(
    parents: &[u16],
    names: &[u8],
    numbers: &[u16],
    keys: &[u8],
    more: Option<&[u8]>,
    groups: &mut [u16],
)
    requires ready { RoundReady (length groups.old) parents.now names.now numbers.now keys.now
        (given_keys (length groups.old) (option_copied more)) groups.old }
    ensures { JoinedUntil
        (RoundClosed (length groups.old) parents.now names.now numbers.now
        keys.now (given_keys (length groups.old) (option_copied more.entry)))
        (length groups.old) groups.old groups.new }
{
    let rules = Rules {
        parents,
        names,
        numbers,
        keys,
        more,
    };
    let mut kinds = Kinds::new();
    fill_all(rules, groups, &mut kinds);
    if kinds.queue.tail == 0 {
        return;
    }
    settle(rules, groups, &mut kinds);
    forest::flatten(groups);
}
