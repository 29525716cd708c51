// The set of names seen on the way to each state, as 64 bits.
ghost use Rattle.std.specs.Prelude.{◌≡◌, length};
ghost use Rattle.indexed.specs.Passes.{SeenSets};

use base::sets::with_name;
use indexed::Tree;

// The sets of names seen on the way to the states: none at the root, and each other from its parent's.
pub fn seen_sets(tree: Tree, seen: &mut [u64])
    requires { length seen.old ≡ length tree.parents.now }
    ensures { SeenSets (length seen.old) tree.entry.parents.now tree.entry.names.now seen.new }
{
    seen[0] = 0;
    for v in 1..seen.len() {
        let parent = tree.parents[v] as usize;
        seen[v] = with_name(seen[parent], tree.names[v]);
    }
}
