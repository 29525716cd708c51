// The number of a name by its bytes: a search over the ascending names of a list of name fields, whose offsets are noted once; and, for a
// caller that asks often, a guess before the search.
#![tactic(auto)]

ghost use Rattle.std.specs.Prelude.{◌≡◌, ◌≤◌, ◌<◌, length};
ghost use Rattle.base.specs.Limits.{name_limit};
ghost use Rattle.model.specs.Fields.{Ascends, name_number};
ghost use Rattle.judging.specs.Offsets.{offset_at, fields_at, name_at};
ghost use Rattle.name_search.specs.Search.{Ordered, Indexed};

use base::limits::NAME_LIMIT;
use judging::offsets::{body, next_field};
use std::cmp::Ordering;

// One offset for each name that a list may have.
const STARTS: usize = NAME_LIMIT as usize;

// One guess for each hash of a name.
const HASHES: usize = 256;

// The first `count` fields of a list, which are its names: where each begins; and guesses, for a hash the number of a name that has it.
// Nothing is promised of the guesses.
#[derive(Clone, Copy)]
pub struct Index<'a> {
    pub list: &'a [u8],
    pub count: u8,
    pub starts: [usize; STARTS],
    pub guesses: [u8; HASHES],
    pub ghost indexed: { Indexed list.now count starts },
}

// How a stands to b: the first difference decides, and a proper beginning comes first.
#[tactic(auto, using(crate::proofs::OrderLaws::ordered_cmp))]
pub fn compare(a: &[u8], b: &[u8]) -> Ordering
    ensures { Ordered a.now b.now result }
{
    a.cmp(b)
}

// The hash of a name, made from all of its bytes.
fn hash(name: &[u8]) -> u8 {
    name.iter()
        .fold(0u8, |sum, byte| sum.wrapping_mul(31).wrapping_add(*byte))
}

impl<'a> Index<'a> {
    // Notes where each of the first `count` fields of the list begins, and the guesses.
    pub fn new(list: &'a [u8], count: u8) -> Index<'a>
        requires count_le_name_limit { count ≤ name_limit }
        requires count_in_bounds { offset_at list.now 0 count ≤ length list.now }
        ensures { (result.list.now ≡ list.now) × (result.count ≡ count) }
    {
        let mut starts = [0usize; STARTS];
        let mut guesses = [0u8; HASHES];
        let mut at = 0;
        for i in 0..count {
            starts[i as usize] = at;
            guesses[hash(body(list, at)) as usize] = i;
            at = next_field(list, at);
        }
        Index {
            list,
            count,
            starts,
            guesses,
        }
    }

    // The bytes of the name with this number.
    #[tactic(auto, using(crate::proofs::SearchLaws::noted_within, crate::proofs::SearchLaws::noted_name))]
    fn name(&self, number: u8) -> &'a [u8]
        requires { number < self.now.count }
        ensures { result.now ≡ name_at self.now.list.now self.now.count number }
    {
        body(self.list, self.starts[number as usize])
    }

    // The number of a name; how many names there are where it is none of them.
    // Stays: (a) the count for none and no `Option`, since `name_number` gives it, and plan_reading writes it into its log as it is.
    // Stays: (d) a search by hand: `binary_search_by` goes over the offsets with a closure that may be asked of any number, and `body`
    // takes only those at which a name begins.
    pub fn number_of(&self, name: &[u8]) -> u8
        requires ascends { Ascends (fields_at self.now.list.now 0 self.now.count) }
        ensures { result ≡ name_number (fields_at self.now.list.now 0 self.now.count) name.now }
    {
        let mut low: u8 = 0;
        let mut high = self.count;
        while low < high {
            let middle = (low + high) / 2;
            match compare(name, self.name(middle)) {
                Ordering::Less => high = middle,
                Ordering::Equal => return middle,
                Ordering::Greater => low = middle + 1,
            }
        }
        self.count
    }

    // The same, by the guess for the name's hash and, where that is another name's number, by the search.
    pub fn number_by_guess(&self, name: &[u8]) -> u8
        requires ascends { Ascends (fields_at self.now.list.now 0 self.now.count) }
        ensures { result ≡ name_number (fields_at self.now.list.now 0 self.now.count) name.now }
    {
        let guess = self.guesses[hash(name) as usize];
        if guess < self.count && name == self.name(guess) {
            return guess;
        }
        self.number_of(name)
    }
}
