// The open elements of a plan, each with where its name stands in the plan. Nothing is copied.
ghost use Rattle.std.specs.Prelude.{◌≡◌, ◌+◌, ◌-◌, ◌≤◌, ◌<◌, length, slice_set};
ghost use Rattle.base.specs.Limits.{plan_depth};

use base::limits::PLAN_DEPTH;

// An open element: where its name begins in the plan, where it ends, and its number.
#[derive(Clone, Copy)]
pub struct Open {
    pub from: usize,
    pub end: usize,
    pub number: usize,
}

// The open elements, the outermost first: so many of these are open.
// Stays: (a) a length beside an array: nothing is allocated.
#[derive(Drop)]
pub struct Stack {
    pub opens: [Open; PLAN_DEPTH],
    pub depth: usize,
    pub ghost shallow: { depth ≤ plan_depth },
}

impl Stack {
    ghost use Rattle.plan_reading.specs.Pieces.{IsInnermost};

    // No element is open.
    pub(crate) fn new() -> Stack
        ensures room { length result.opens ≡ plan_depth }
        ensures none_open { result.depth ≡ 0 }
    {
        let none = Open {
            from: 0,
            end: 0,
            number: 0,
        };
        Stack {
            opens: [none; PLAN_DEPTH],
            depth: 0,
        }
    }

    // The innermost open element.
    pub(crate) fn innermost(&self) -> Option<Open>
        ensures { IsInnermost self.now.opens self.now.depth result }
    {
        self.opens[..self.depth].last().copied()
    }

    // One element more is open, inside the others.
    pub(crate) fn push(&mut self, element: Open)
        requires { self.old.depth < plan_depth }
        ensures opens_after { self.new.opens ≡ slice_set self.old.opens self.old.depth element }
        ensures depth_after { self.new.depth ≡ self.old.depth + 1 }
    {
        self.opens[self.depth] = element;
        self.depth += 1;
    }

    // The innermost element is open no longer.
    pub(crate) fn pop(&mut self)
        requires { 0 < self.old.depth }
        ensures opens_unchanged { self.new.opens ≡ self.old.opens }
        ensures depth_after { self.new.depth ≡ self.old.depth - 1 }
    {
        self.depth -= 1;
    }
}
