// Classes of the states of a prefix tree by their last names, and the partition by them. A state's class is the first state with
// the same last names. The last names of each state are one number, its code, seven bits a name; states are compared by their
// codes. For passes against the arcs the name before the last ones is a state's key.
#![tactic(auto)]

ghost use Rattle.std.specs.Prelude.{◌≡◌, false, ℕ, suc, ◌+◌, ◌-◌, ◌*◌, ◌/◌, ◌%◌, ◌^◌, ◌<◌, ◌≤◌, length, get_or, MatchOption};
ghost use Rattle.base.specs.Limits.{name_limit, setting_limit};
ghost use Rattle.indexed.specs.Partitions.{Alone};
ghost use Rattle.indexed.specs.Passes.{SuffixClasses, BySuffix, NamesAbove};
ghost use Rattle.suffixes.specs.Codes.{least, Coded};
ghost use Rattle.suffixes.specs.Classes.{above, Dropped};

use base::limits::{NAME_LIMIT, NO_STATE, STATE_LIMIT};
use indexed::Tree;

// The class of the state before the last name of v.
pub fn class_above(old: &[u16], parents: &[u16], v: usize) -> usize
    requires v_in_bounds { v < length parents.now }
    requires v_in_bounds_2 { get_or parents.now v 0 < length old.now }
    ensures { result ≡ above old.now parents.now v }
{
    old[parents[v] as usize] as usize
}

// Ones in the bits of i names.
fn mask_of(i: usize) -> u64
    requires { i ≤ setting_limit }
    ensures { result ≡ 2 ^ (7 * i) - 1 }
{
    (1u64 << (7 * i)) - 1
}

// The least code of a state with i names or more.
fn least_code(i: usize) -> u64
    requires { i ≤ setting_limit }
    ensures { result ≡ least i }
{
    if i == 0 {
        return 0;
    }
    1u64 << (7 * (i - 1))
}

// A code with one name more at its end.
fn longer(code: u64, name: u8) -> u64
    requires code_bound { code < 2 ^ 56 }
    requires name_lt_name_limit { name < name_limit }
    ensures { result ≡ code * 128 + (name + 1) }
{
    (code << 7) | (name as u64 + 1)
}

// A code with one name more at its end, cut to the bits of the mask.
#[tactic(auto, using(crate::proofs::CodeLaws::masked))]
fn with_name(code: u64, name: u8, mask: u64) -> u64
    requires code_bound { code < 2 ^ 56 }
    requires name_lt_name_limit { name < name_limit }
    ensures { (i : ℕ) → mask ≡ 2 ^ (7 * i) - 1 → result ≡ (code * 128 + (name + 1)) % 2 ^ (7 * i) }
{
    longer(code, name) & mask
}

// The code of each state by its last i names, from that of the state before it.
fn codes(i: usize, tree: Tree, values: &mut [u64])
    requires size { length values.old ≡ length tree.parents.now }
    requires i_le_setting_limit { i ≤ setting_limit }
    ensures { Coded (length values.old) i tree.entry.parents.now tree.entry.names.now values.new }
{
    let mask = mask_of(i);
    values[0] = 0;
    for v in 1..values.len() {
        let parent = tree.parents[v] as usize;
        values[v] = with_name(values[parent], tree.names[v], mask);
    }
}

// The first name of a code of j + 1 names; none where there are fewer.
#[tactic(auto, using(crate::proofs::AboveLaws::top_small))]
fn top_name(j: usize, code: u64) -> Option<u8>
    requires j_le_setting_limit { j ≤ setting_limit }
    requires code_bound { code < 2 ^ (7 * suc j) }
    ensures { MatchOption result (code / 2 ^ (7 * j) ≡ 0) (λ name. name + 1 ≡ code / 2 ^ (7 * j)) }
{
    let top = code >> (7 * j);
    if top == 0 {
        return None;
    }
    Some((top - 1) as u8)
}

// The name before the last j names of each state, no name where there is none: the first of the code of j + 1 names, which are one name
// more than the j of the state before it.
// Stays: (a) NAME_LIMIT for none (the clause NamesAbove speaks of it, and an array of u8 has room for no Option).
fn names_above(j: usize, tree: Tree, values: &[u64], keys: &mut [u8])
    requires size { length values.now ≡ length tree.parents.now }
    requires few { j ≤ setting_limit }
    requires keys_size { length keys.old ≡ length values.now }
    requires coded { Coded (length values.now) j tree.parents.now tree.names.now values.now }
    ensures { NamesAbove (length values.now) j tree.entry.parents.now tree.entry.names.now keys.new }
{
    keys[0] = NAME_LIMIT;
    for v in 1..keys.len() {
        let parent = tree.parents[v] as usize;
        let code = longer(values[parent], tree.names[v]);
        keys[v] = top_name(j, code).unwrap_or(NAME_LIMIT);
    }
}

// The code of each state by its last j names, and the name before these, no name where there is none.
pub fn codes_and_names_above(j: usize, tree: Tree, values: &mut [u64], keys: &mut [u8])
    requires size { length values.old ≡ length tree.parents.now }
    requires few { j ≤ setting_limit }
    requires keys_size { length keys.old ≡ length values.old }
    ensures coded { Coded (length values.old) j tree.entry.parents.now tree.entry.names.now values.new }
    ensures above { NamesAbove (length values.old) j tree.entry.parents.now tree.entry.names.now keys.new }
{
    codes(j, tree, values);
    names_above(j, tree, values, keys);
}

// No class for the states with codes below the least.
// Stays: (a) NO_STATE for none (the clause SuffixClasses speaks of it, and an array of u16 has room for no Option).
fn drop_short(bound: u64, values: &[u64], classes: &mut [u16])
    requires { length values.now ≡ length classes.old }
    ensures { Dropped (length classes.old) bound values.now classes.old classes.new }
{
    for (v, class) in classes.iter_mut().enumerate() {
        if values[v] < bound {
            *class = NO_STATE;
        }
    }
}

// The classes by the last i names: those of equal codes, none for states with fewer names. Its arrays are in no frame but its own, as
// the stack is small.
#[inline(never)]
pub fn suffix_classes(i: usize, tree: Tree, classes: &mut [u16])
    requires size { length classes.old ≡ length tree.parents.now }
    requires i_le_setting_limit { i ≤ setting_limit }
    ensures { SuffixClasses (length classes.old) i tree.entry.parents.now tree.entry.names.now classes.new }
{
    let mut room = [0u64; STATE_LIMIT];
    let values = &mut room[..classes.len()];
    codes(i, tree, values);
    values::classes_of(values, classes);
    drop_short(least_code(i), values, classes);
}

// The partition by the last k names: a state with fewer names has a code that no other has, and is by itself. True where any states
// were joined. Its arrays are in no frame but its own, as the stack is small.
#[inline(never)]
pub fn by_suffix(k: usize, tree: Tree, groups: &mut [u16]) -> bool
    requires size { length groups.old ≡ length tree.parents.now }
    requires few { k ≤ setting_limit }
    ensures by { BySuffix (length groups.old) k tree.entry.parents.now tree.entry.names.now groups.new }
    ensures none { result ≡ false → Alone (length groups.old) groups.new }
{
    let mut room = [0u64; STATE_LIMIT];
    let values = &mut room[..groups.len()];
    codes(k, tree, values);
    values::classes_of(values, groups)
}
