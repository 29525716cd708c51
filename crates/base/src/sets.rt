// Sets of names in 64 bits, bit n for name n.
ghost use Rattle.std.specs.Prelude.{◌≡◌, ◌^◌, ◌<◌, MatchOption};
ghost use Rattle.std.specs.Iterator.{at_most};
ghost use Rattle.std.specs.Int.Bits.{bit_or};
ghost use Rattle.std.specs.Int.Count.{ones};
ghost use Rattle.base.specs.Limits.{name_limit};
ghost use Rattle.base.specs.Sets.{TakenLowest};

// The names of a set, from the lowest to the highest: those that are still to come.
#[derive(Drop)]
pub struct Names {
    pub left: u64,
}

impl Iterator for Names {
    type Item = u8;

    ghost next_gives = { λ before next after. MatchOption next (before.left ≡ 0) (λ name. TakenLowest before.left name after.left) };

    ghost remaining = { λ names. at_most names.left };

    fn next(&mut self) -> Option<u8> {
        let left = self.left;
        if left == 0 {
            return None;
        }
        let name = u64::trailing_zeros(left) as u8;
        self.left = left - (1u64 << name);
        Some(name)
    }
}

impl Names {
    // Those of a whole set.
    pub fn of(set: u64) -> Names
        ensures { result.left ≡ set }
    {
        Names { left: set }
    }
}

// How many names a set has.
pub fn how_many(names: u64) -> usize
    ensures { result ≡ ones names }
{
    u64::count_ones(names) as usize
}

// The set with one name more.
pub fn with_name(names: u64, name: u8) -> u64
    requires { name < name_limit }
    ensures { result ≡ bit_or names (2 ^ name) }
{
    names | (1u64 << name)
}
