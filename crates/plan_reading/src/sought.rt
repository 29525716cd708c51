// What a plan is read for: the names of a list, and one of them.
ghost use Rattle.std.specs.Prelude.{◌≡◌, ◌≤◌, ◌<◌, length};
ghost use Rattle.base.specs.Limits.{name_limit};
ghost use Rattle.model.specs.Fields.{Ascends};
ghost use Rattle.judging.specs.Offsets.{offset_at, fields_at};

use name_search::Index;

// The names, which ascend, and the number of the chosen one.
#[derive(Clone, Copy)]
pub struct Sought<'a> {
    pub names: Index<'a>,
    pub chosen: u8,
    pub ghost ascends: { Ascends (fields_at names.list.now 0 names.count) },
    pub ghost some: { chosen < names.count },
}

impl<'a> Sought<'a> {
    // The first `count` fields of a list, and one of them.
    pub fn new(list: &'a [u8], count: u8, chosen: u8) -> Sought<'a>
        requires count_le_name_limit { count ≤ name_limit }
        requires count_in_bounds { offset_at list.now 0 count ≤ length list.now }
        requires ascends { Ascends (fields_at list.now 0 count) }
        requires some { chosen < count }
        ensures list_kept { result.names.list.now ≡ list.now }
        ensures count_kept { result.names.count ≡ count }
        ensures chosen_kept { result.chosen ≡ chosen }
    {
        Sought {
            names: Index::new(list, count),
            chosen,
        }
    }
}
