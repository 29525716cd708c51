// Partitions of states by number. A partition is a slice that gives each state the number of its group, the lowest state of it;
// joins are made in one that is kept as a forest.
#![tactic(auto)]

pub mod forest;

ghost use Rattle.std.specs.Prelude.{◌≡◌, ◌≤◌, length};
ghost use Rattle.base.specs.Limits.{state_limit};
ghost use Rattle.base.specs.Lists.{numbers_from};

// Writes each state's own number.
pub fn own(numbers: &mut [u16])
    requires { length numbers.old ≤ state_limit }
    ensures { numbers.new ≡ numbers_from (length numbers.old) 0 }
{
    for (v, number) in numbers.iter_mut().enumerate() {
        *number = v as u16;
    }
}
