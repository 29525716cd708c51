// Partitions joined by the rule of f: last names and seen sets. Both start from accepting states with one value of f, and then
// join along forks and against the arcs until no pass joins.
#![tactic(auto)]

pub mod keys;
pub mod rounds;
pub mod seen;

ghost use Rattle.std.specs.Prelude.{◌≡◌, ◌≤◌, length};
ghost use Rattle.base.specs.Limits.{setting_limit};
ghost use Rattle.functions.specs.Results.{JoinedByLast, JoinedBySeen};

use base::limits::STATE_LIMIT;
use indexed::Tree;

// Joins by the set of names seen. Its arrays are in no frame but its own, as the stack is small.
#[inline(never)]
pub fn join_by_seen(tree: Tree, ends: &[u16], groups: &mut [u16])
    requires size { length groups.old ≡ length tree.parents.now }
    requires ends_size { length ends.now ≡ length groups.old }
    ensures { JoinedBySeen (length groups.old) tree.entry.parents.now tree.entry.names.now ends.now groups.new }
{
    let n = groups.len();
    let mut sets = [0u64; STATE_LIMIT];
    let mut enlarging = [0u8; STATE_LIMIT];
    let mut others = [0u8; STATE_LIMIT];
    let sets = &mut sets[..n];
    let enlarging = &mut enlarging[..n];
    let others = &mut others[..n];
    seen::seen_sets(tree, sets);
    keys::seen_keys(tree, sets, enlarging, others);
    rounds::finish(tree, ends, sets, enlarging, Some(others), groups);
}

// Joins by the last j names; their codes have one set of keys.
#[inline(never)]
pub fn join_by_last(j: usize, tree: Tree, ends: &[u16], groups: &mut [u16])
    requires few { j ≤ setting_limit }
    requires size { length groups.old ≡ length tree.parents.now }
    requires ends_size { length ends.now ≡ length groups.old }
    ensures { JoinedByLast (length groups.old) j tree.entry.parents.now tree.entry.names.now ends.now groups.new }
{
    let n = groups.len();
    let mut codes = [0u64; STATE_LIMIT];
    let mut keys = [0u8; STATE_LIMIT];
    let codes = &mut codes[..n];
    let keys = &mut keys[..n];
    suffixes::codes_and_names_above(j, tree, codes, keys);
    rounds::finish(tree, ends, codes, keys, None, groups);
}
