// The partition by ends, joined along forks and against the arcs until closed.
ghost use Rattle.std.specs.Prelude.{length, option_copied};
ghost use Rattle.worklist.specs.Keys.{given_keys};
ghost use Rattle.functions.specs.Rounds.{FinishReady, Finished};

use base::limits::STATE_LIMIT;
use indexed::Tree;

// The partition by ends, in which accepting states with one value of f are joined, and then joins until it is closed. Where the
// ends join no states, each state is by itself, and that is closed: a state has at most one child by a name.
pub fn finish(
    tree: Tree,
    ends: &[u16],
    values: &[u64],
    keys: &[u8],
    more: Option<&[u8]>,
    groups: &mut [u16],
)
    requires { FinishReady (length groups.old) tree.parents.now tree.names.now ends.now values.now keys.now
        (given_keys (length groups.old) (option_copied more)) }
    ensures { Finished (length groups.old) tree.entry.parents.now tree.entry.names.now ends.now values.now keys.now
        (given_keys (length groups.old) (option_copied more.entry)) groups.new }
{
    let mut room = [0u16; STATE_LIMIT];
    let numbers = &mut room[..groups.len()];
    partition::own(numbers);
    let joined = values::by_ends(ends, values, groups);
    if joined {
        worklist::close(tree.parents, tree.names, numbers, keys, more, groups);
    }
}
