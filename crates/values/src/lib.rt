// Groups of states by a value that each of them has, a set or a code of names. A state accepts where rows end in it; how many, an
// array says for each state. Accepting states with one value are joined, each by the first of them, and every other state is by
// itself; where all accept, these are the classes of equal values. The first accepting states of values are kept in 512 lists, each
// value in the list of its bucket, so that a state is compared with few others.
#![tactic(auto)]

ghost use Rattle.std.specs.Prelude.{◌≡◌, false, ◌+◌, ◌<◌, ◌≤◌, length, get_or, set, MatchOption};
ghost use Rattle.base.specs.Limits.{state_limit};
ghost use Rattle.indexed.specs.Partitions.{Alone};
ghost use Rattle.indexed.specs.Passes.{ByEnds, ByValue};
ghost use Rattle.values.specs.Buckets.{bucket_of, Buckets, SomeBuckets, FirstAlike, EndLabel};

use base::limits::STATE_LIMIT;

// The bucket of a value: nine bits from the middle of the two halves' products with large odd numbers, so that values which differ
// in few bits fall apart. A product of two numbers of 32 bits fits; its highest bits would be 0 for small values.
#[tactic(auto, unfolding(crate::specs::Buckets::bucket_of))]
fn bucket(value: u64) -> usize
    ensures value { result ≡ bucket_of value }
    ensures below { result < state_limit }
{
    let low = (value & 4294967295) * 2654435769;
    let high = (value >> 32) * 2246822519;
    (((low ^ high) >> 23) & 511) as usize
}

// The first accepting states of the values met so far, in a list for each bucket: the last state of each list, and for each state in a
// list the one before it there; each plus one, 0 for none.
// Stays: (a) 0 for none, and a number plus one else (fixed memory: two bytes for each number, where an Option takes four; and the record
// Chained speaks of it).
#[derive(Drop)]
struct Firsts {
    links: [u16; STATE_LIMIT],
    heads: [u16; STATE_LIMIT],
}

impl Firsts {
    // The first accepting state with the value of state v, which accepts, sought among those before v in the list of the value's
    // bucket, where the first of each value is; none where it is v itself. It asks of no state whether it accepts: whichever states
    // are in the lists, those are the accepting ones.
    fn find(&self, values: &[u64], b: usize, v: usize) -> Option<usize>
        requires few { length values.now ≤ state_limit }
        requires inside { v < length values.now }
        requires list { b ≡ bucket_of (get_or values.now v 0) }
        requires below { b < state_limit }
        requires lists { SomeBuckets values.now v self.now.links self.now.heads }
        ensures { MatchOption result
            (FirstAlike values.now v self.now.links self.now.heads v)
            (λ u. (u < v) × FirstAlike values.now v self.now.links self.now.heads u) }
    {
        let value = values[v];
        let mut at = self.heads[b] as usize;
        while 0 < at {
            let u = at - 1;
            if values[u] == value {
                return Some(u);
            }
            at = self.links[u] as usize;
        }
        None
    }

    // Puts state v at the end of list b.
    fn push(&mut self, b: usize, v: usize)
        requires inside { v < state_limit }
        requires below { b < state_limit }
        ensures links { self.new.links ≡ set self.old.links v (get_or self.old.heads b 0) }
        ensures heads { self.new.heads ≡ set self.old.heads b (v + 1) }
    {
        self.links[v] = self.heads[b];
        self.heads[b] = (v + 1) as u16;
    }

    // The group of state v, by the lists of the states before it, into which it is put where it is the first with its value.
    fn label(&mut self, ends: &[u16], values: &[u64], v: usize) -> usize
        requires few { length values.now ≤ state_limit }
        requires ends_size { length ends.now ≡ length values.now }
        requires inside { v < length values.now }
        requires so_far { Buckets ends.now values.now v self.old.links self.old.heads }
        ensures label { EndLabel ends.now values.now v result }
        ensures with_it { Buckets ends.now values.now (v + 1) self.new.links self.new.heads }
    {
        if ends[v] == 0 {
            return v;
        }
        let b = bucket(values[v]);
        if let Some(first) = self.find(values, b, v) {
            return first;
        }
        self.push(b, v);
        v
    }
}

// Joins the accepting states of each value, and no others; true where any state was joined to an earlier one.
pub fn by_ends(ends: &[u16], values: &[u64], groups: &mut [u16]) -> bool
    requires few { length groups.old ≤ state_limit }
    requires ends_size { length ends.now ≡ length groups.old }
    requires values_size { length values.now ≡ length groups.old }
    ensures ends { ByEnds (length groups.old) ends.now values.now groups.new }
    ensures none { result ≡ false → Alone (length groups.old) groups.new }
{
    let mut firsts = Firsts {
        links: [0; STATE_LIMIT],
        heads: [0; STATE_LIMIT],
    };
    let mut joined = false;
    for (v, group) in groups.iter_mut().enumerate() {
        let label = firsts.label(ends, values, v);
        *group = label as u16;
        joined |= label != v;
    }
    joined
}

// Each state's class: the first state with the same value. True where any states have one value.
pub fn classes_of(values: &[u64], classes: &mut [u16]) -> bool
    requires few { length classes.old ≤ state_limit }
    requires values_size { length values.now ≡ length classes.old }
    ensures classes { ByValue (length classes.old) values.now classes.new }
    ensures none { result ≡ false → Alone (length classes.old) classes.new }
{
    let n = classes.len();
    let all = [1u16; STATE_LIMIT];
    by_ends(&all[..n], values, classes)
}
