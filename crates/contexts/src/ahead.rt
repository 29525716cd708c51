// Which two names in succession can be walked from each group, as a set of 16 bits. A name counts by its low two bits, so that no two
// names can be walked from both of two groups whose sets have no bit in common; a bit in common tells nothing. An arc goes by the
// state that it leads into.
ghost use Rattle.std.specs.Prelude.{length};
ghost use Rattle.contexts.specs.Ahead.{LowNames, LeadOnBelow, AheadOf};

use crate::view::View;
use base::limits::STATE_LIMIT;
use suffixes::class_above;

// The low two bits of the names in a set, as a set of 4 bits: its halves are laid over each other until 4 bits are left.
fn low_names(set: u64) -> u16
    ensures { LowNames set result }
{
    let by_32 = set | (set >> 32);
    let by_16 = by_32 | (by_32 >> 16);
    let by_8 = by_16 | (by_16 >> 8);
    let by_4 = by_8 | (by_8 >> 4);
    (by_4 & 15) as u16
}

// The sets of two names: each arc adds its name with those that can be walked from where it leads to.
fn two_names(view: View, next: &[u64; STATE_LIMIT], ahead: &mut [u16; STATE_LIMIT])
    ensures { LeadOnBelow (length view.entry.old.now) view.entry.tree.parents.now view.entry.tree.names.now view.entry.old.now
        next.now ahead.new }
{
    for v in 1..view.old.len() {
        let from = class_above(view.old, view.tree.parents, v);
        let into = view.old[v] as usize;
        let on = low_names(next[into]);
        ahead[from] |= on << (4 * (view.tree.names[v] & 3));
    }
}

// The sets of two names, where j of 2 or more can be walked. For fewer names every group has a bit in common with every other.
pub fn names_ahead(view: View, next: &[u64; STATE_LIMIT]) -> [u16; STATE_LIMIT]
    ensures { AheadOf (length view.entry.old.now) view.entry.j view.entry.tree.parents.now view.entry.tree.names.now
        view.entry.old.now next.now result }
{
    if view.j < 2 {
        return [1u16; STATE_LIMIT];
    }
    let mut ahead = [0u16; STATE_LIMIT];
    two_names(view, next, &mut ahead);
    ahead
}
