// What the public entries give back, in Rattle and C alike.
// Stays: (a) the C interface: a refusal and the end of a walk are numbers in these structs, and 0 stands for none.
#![tactic(auto)]

ghost use Rattle.std.specs.Prelude.{◌≡◌};
ghost use Rattle.base.specs.Refusals.{number_of};
ghost use Rattle.results.specs.Says.{not_built, not_counted, uncounted, not_rewritten, not_walked, not_written, plan_rows_of};

use base::refusals::Refusal;

// What a build gives back: its refusal or 0, then the table's length in bytes, its states, the joins, tree states less table states,
// and how many different rows the book has.
#[repr(C)]
#[derive(Clone, Copy, Default)]
pub struct Built {
    pub refusal: u8,
    pub length: u32,
    pub states: u32,
    pub joins: u32,
    pub distinct: u32,
}

// What a build with counts gives back: the same, and the length of the counts in bytes.
#[repr(C)]
#[derive(Clone, Copy, Default)]
pub struct Counted {
    pub refusal: u8,
    pub length: u32,
    pub states: u32,
    pub joins: u32,
    pub distinct: u32,
    pub counts_length: u32,
}

// What a rewriting gives back: its refusal or 0, then the table's length in bytes and its states.
#[repr(C)]
#[derive(Clone, Copy, Default)]
pub struct Rewritten {
    pub refusal: u8,
    pub length: u32,
    pub states: u32,
}

// What a walk gives back: its refusal or 0; 1 admitted, 2 on the way (the row begins an admitted one), 3 stops; how many names may come
// next; how long the row's longest beginning is that begins an admitted row; the names that may come next, those with which that beginning
// still does, bit n for name n.
#[repr(C)]
#[derive(Clone, Copy, Default)]
pub struct Walked {
    pub refusal: u8,
    pub outcome: u8,
    pub next_count: u8,
    pub walked: u32,
    pub next_names: u64,
}

// What a call that writes bytes gives back: a refusal's number or 0, and how many bytes were written.
#[repr(C)]
#[derive(Clone, Copy, Default)]
pub struct Written {
    pub refusal: u8,
    pub length: u32,
}

// What a plan's rows give back: a refusal's number or 0, how many bytes were written, how many rows these are, and the offset in the plan
// where 14, 15 or 16 is found.
#[repr(C)]
#[derive(Clone, Copy, Default)]
pub struct PlanRows {
    pub refusal: u8,
    pub length: u32,
    pub rows: u32,
    pub at: u32,
}

// A refused build: no table, no states, no joins, no rows.
impl From<Refusal> for Built {
    ghost from_gives = { λ refusal built. built ≡ not_built (number_of refusal) };

    fn from(refusal: Refusal) -> Built {
        Built::from(Counted::from(refusal))
    }
}

// A refused build with counts: no table, no states, no joins, no rows, no counts.
pub fn not_counted(refusal: u8) -> Counted
    ensures { result ≡ not_counted refusal }
{
    Counted {
        refusal,
        ..Counted::default()
    }
}

// Of a refusal.
impl From<Refusal> for Counted {
    ghost from_gives = { λ refusal counted. counted ≡ not_counted (number_of refusal) };

    fn from(refusal: Refusal) -> Counted {
        not_counted(refusal.into())
    }
}

// What a build gives back, from what one with counts does.
impl From<Counted> for Built {
    ghost from_gives = { λ counted built. built ≡ uncounted counted };

    fn from(counted: Counted) -> Built {
        Built {
            refusal: counted.refusal,
            length: counted.length,
            states: counted.states,
            joins: counted.joins,
            distinct: counted.distinct,
        }
    }
}

// A refused rewriting: no table, no states.
pub fn not_rewritten(refusal: u8) -> Rewritten
    ensures { result ≡ not_rewritten refusal }
{
    Rewritten {
        refusal,
        ..Rewritten::default()
    }
}

// Of a refusal.
impl From<Refusal> for Rewritten {
    ghost from_gives = { λ refusal rewritten. rewritten ≡ not_rewritten (number_of refusal) };

    fn from(refusal: Refusal) -> Rewritten {
        not_rewritten(refusal.into())
    }
}

// A refused walk: no outcome, no names.
pub fn not_walked(refusal: u8) -> Walked
    ensures { result ≡ not_walked refusal }
{
    Walked {
        refusal,
        ..Walked::default()
    }
}

// Of a refusal.
impl From<Refusal> for Walked {
    ghost from_gives = { λ refusal walked. walked ≡ not_walked (number_of refusal) };

    fn from(refusal: Refusal) -> Walked {
        not_walked(refusal.into())
    }
}

// A refused call that writes bytes: none.
pub fn not_written(refusal: u8) -> Written
    ensures { result ≡ not_written refusal }
{
    Written {
        refusal,
        ..Written::default()
    }
}

// Of a refusal.
impl From<Refusal> for Written {
    ghost from_gives = { λ refusal written. written ≡ not_written (number_of refusal) };

    fn from(refusal: Refusal) -> Written {
        not_written(refusal.into())
    }
}

// A refused call that writes a plan's rows: none. The offset is handed in: that of 14, 15 or 16, and 0 for another refusal.
pub fn not_read(refusal: u8, at: u32) -> PlanRows
    ensures { result ≡ plan_rows_of refusal 0 0 at }
{
    PlanRows {
        refusal,
        at,
        ..PlanRows::default()
    }
}
