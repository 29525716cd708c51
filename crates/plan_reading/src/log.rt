// The log of a plan's tags: two bytes a tag.
ghost use Rattle.std.specs.Prelude.{◌≡◌, [], ◌∷◌, ◌++◌, ◌+◌, ◌*◌, ◌<◌, length};
ghost use Rattle.written_plans.specs.Logs.{entries_at};
ghost use Rattle.plan_reading.specs.Turns.{entry};

// Stays: (d) the log goes as the lent area with the number of tags beside it: reading itself needs that number, to tell before from after
// the outermost element, and would keep a second one.
// One entry more, after so many: the number of a name, and how many elements are around.
#[tactic(auto, using(crate::proofs::LogLaws::entry_put))]
pub fn put_entry(log: &mut [u8], tags: usize, number: u8, depth: usize)
    requires tags_in_bounds { 2 * tags + 1 < length log.old }
    requires depth_bound { depth < 256 }
    ensures log_len_unchanged { length log.new ≡ length log.old }
    ensures tags_after { entries_at log.new 0 (tags + 1) ≡ entries_at log.old 0 tags ++ (entry number depth ∷ []) }
{
    log[2 * tags] = number;
    log[2 * tags + 1] = depth as u8;
}
