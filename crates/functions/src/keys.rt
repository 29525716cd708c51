// Keys of arcs for passes against them: names by whether the seen set grows.
ghost use Rattle.std.specs.Prelude.{◌≡◌, true, false, cond, ℕ, ◌^◌, ◌<◌, eqb, None, Some, length};
ghost use Rattle.std.specs.Int.Bits.{bit_or};
ghost use Rattle.base.specs.Limits.{name_limit};
ghost use Rattle.indexed.specs.Passes.{SeenSets, KeysWhere};

use base::limits::NAME_LIMIT;
use indexed::Tree;

// The name that an arc adds to the seen set, by the sets before and after it. It adds one where the set after it has more names than
// the set before it: the lowest name added. The names of equal sets are not counted.
#[tactic(auto, using(crate::proofs::KeyLaws::not_less, crate::proofs::KeyLaws::added_name, crate::proofs::KeyLaws::added_none))]
fn added(before: u64, after: u64) -> Option<u8>
    requires with_name { (name : ℕ) × (name < name_limit) × (after ≡ bit_or before (2 ^ name)) }
    ensures { (name : ℕ) → name < name_limit → after ≡ bit_or before (2 ^ name) → result ≡ cond (eqb after before) None (Some name) }
{
    if before != after && u64::count_ones(before) < u64::count_ones(after) {
        return Some(u64::trailing_zeros(after - before) as u8);
    }
    None
}

// The names of the arcs that enlarge the seen set, and those of the arcs that do not; no key at the others and at the root.
// Stays: (a) NAME_LIMIT for none: the clauses KeysWhere speak of it, and an array of u8 has room for no Option.
pub fn seen_keys(tree: Tree, seen: &[u64], enlarging: &mut [u8], others: &mut [u8])
    requires size { length seen.now ≡ length tree.parents.now }
    requires sets { SeenSets (length seen.now) tree.parents.now tree.names.now seen.now }
    requires enlarging_size { length enlarging.old ≡ length seen.now }
    requires others_size { length others.old ≡ length seen.now }
    ensures enlarging { KeysWhere (length seen.now) true tree.entry.parents.now tree.entry.names.now seen.now enlarging.new }
    ensures others { KeysWhere (length seen.now) false tree.entry.parents.now tree.entry.names.now seen.now others.new }
{
    enlarging[0] = NAME_LIMIT;
    others[0] = NAME_LIMIT;
    for v in 1..seen.len() {
        let parent = tree.parents[v] as usize;
        let name = tree.names[v];
        let lowest = added(seen[parent], seen[v]);
        enlarging[v] = lowest.unwrap_or(NAME_LIMIT);
        others[v] = if lowest.is_some() { NAME_LIMIT } else { name };
    }
}
