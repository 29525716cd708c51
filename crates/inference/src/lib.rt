// From an accepted book to its table, and to its counts where they are wanted: the prefix tree of its rows, joined by its class's rule,
// numbered first-met and written. Nothing is written before it is known that both fit.
#![tactic(auto)]

pub mod classes;

ghost use Rattle.std.specs.Prelude.{◌≡◌, cond, List, [], ◌∷◌, ◌+◌, ◌*◌, ◌≤◌, length};
ghost use Rattle.base.specs.Limits.{input_limit, state_limit, work_bytes};
ghost use Rattle.model.specs.Classes.{Word};
ghost use Rattle.model.specs.Tables.{state_fields};
ghost use Rattle.counts.specs.Counts.{counts_if};
ghost use Rattle.fields.specs.Places.{file_of};
ghost use Rattle.inference.specs.Books.{BookAt, rows_at, TreeIn, JoinedTree, made_of};
ghost use Rattle.inference.specs.Results.{WritesTable, WritesBook, Infers};

use base::limits::{CLASS_BYTES, STATE_LIMIT};
use base::refusals::Refusal;
use counting::passes::add_passes;
use counting::written::write_counts;
use fields::Place;
use indexed::Tree;
use judging::classes::Class;
use prefix_tree::Growing;
use quotient::Quotient;
use quotient::states::write_states;
use writing::put_front;

// What is written: the table's length in bytes, its states, and the length of the counts.
#[derive(Clone, Copy)]
pub struct Written {
    pub length: usize,
    pub states: usize,
    pub counts: usize,
}

// What is given back: the same, the joins, and how many different rows the book has.
#[derive(Clone, Copy)]
pub struct Inferred {
    pub length: usize,
    pub states: usize,
    pub joins: usize,
    pub distinct: usize,
    pub counts: usize,
}

// How many bytes the counts take of so many states and arcs, none where they are not wanted.
fn counts_bytes(wanted: bool, states: usize, arcs: usize) -> usize
    requires { (states ≤ state_limit) × (arcs ≤ state_limit) }
    ensures { result ≡ cond wanted (5 * states + 2 * arcs) 0 }
{
    if wanted { 5 * states + 2 * arcs } else { 0 }
}

// The automaton of a joined partition, numbered, its states' fields at the front of an output; and where they are wanted its counts at the
// front of another. The ends of the tree's states are used up. Its arrays are in no frame but its own, as the stack is small.
#[inline(never)]
fn write_joined(
    wanted: bool,
    tree: Tree,
    ends: &mut [u16],
    groups: &[u16],
    work: &mut [u8],
    out: &mut [u8],
    counts: &mut [u8],
) -> Result<Written, Refusal>
    requires work_bytes_in_bounds { work_bytes ≤ length work.old }
    requires joined_tree { (rows : List Word) × JoinedTree rows tree.parents.now tree.names.now ends.old groups.now }
    ensures { (rows : List Word) →
        JoinedTree rows tree.entry.parents.now tree.entry.names.now ends.old groups.now →
        WritesTable (state_fields (made_of rows groups.now)) (counts_if wanted (made_of rows groups.now) rows)
        (length (made_of rows groups.now))
        (out.old ∷ (counts.old ∷ [])) (out.new ∷ (counts.new ∷ [])) result }
{
    let mut automaton = Quotient::new();
    automaton.prepare(tree, ends, groups, work);
    let states = automaton.met.count;
    let arcs = automaton.arcs;
    let size = counts_bytes(wanted, states, arcs);
    if (out.len() < 4 * states + 3 * arcs) | (counts.len() < size) {
        return Err(Refusal::OutputTooShort);
    }
    let made = automaton.made();
    let length = write_states(work, made, out, 0);
    if wanted {
        add_passes(tree, groups, ends, work);
        write_counts(work, made, counts);
    }
    Ok(Written {
        length,
        states,
        counts: size,
    })
}

// The prefix tree joined by the class's rule, and then written after the names and the class.
fn join_and_write(
    wanted: bool,
    book: &[u8],
    place: Place,
    tree: Tree,
    ends: &mut [u16],
    work: &mut [u8],
    out: &mut [u8],
    counts: &mut [u8],
) -> Result<Written, Refusal>
    requires book_at { BookAt book.now place × (length book.now ≤ input_limit) × (work_bytes ≤ length work.old) }
    requires tree_in { TreeIn (rows_at book.now place) tree.parents.now tree.names.now ends.old }
    ensures { WritesBook wanted (file_of book.now place)
        (out.old ∷ (counts.old ∷ [])) (out.new ∷ (counts.new ∷ [])) result }
{
    let n = tree.parents.len();
    let named = place.last + place.width;
    let front = named + CLASS_BYTES;
    if out.len() < front {
        return Err(Refusal::OutputTooShort);
    }
    let mut groups = [0u16; STATE_LIMIT];
    classes::join_by_class(place.class, tree, ends, &mut groups[..n]);
    let mut written = write_joined(
        wanted,
        tree,
        ends,
        &groups[..n],
        work,
        &mut out[front..],
        counts,
    )?;
    let Class {
        kind,
        first,
        second,
    } = place.class;
    put_front(out, book, named, [kind, first, second]);
    written.length += front;
    Ok(written)
}

// The table of an accepted book at the front of the output, which is untouched beyond it, and where they are wanted its counts at the front
// of another: their lengths, the states, the joins and the different rows; or refusal 10 or 13, and both outputs are as they were. The lent
// area may hold anything at first.
// Stays: (d) `wanted` beside `counts`: of an `Option<&mut [u8]>` the contract names the bytes left only by the place of a variant's field
// (`counts.exit`), which is no plainer than the two outputs of `inferring`.
pub fn infer(
    wanted: bool,
    book: &[u8],
    place: Place,
    work: &mut [u8],
    out: &mut [u8],
    counts: &mut [u8],
) -> Result<Inferred, Refusal>
    requires { BookAt book.now place × (length book.now ≤ input_limit) × (work_bytes ≤ length work.old) }
    ensures { Infers wanted (file_of book.now place)
        (out.old ∷ (counts.old ∷ [])) (out.new ∷ (counts.new ∷ [])) result }
{
    let mut growing = Growing::new();
    let distinct = growing.add_rows(book, place.start, place.items, work)?;
    let n = growing.count;
    let tree = Tree {
        parents: &growing.parents[..n],
        names: &growing.names[..n],
    };
    let mut ends = growing.ends;
    let table = join_and_write(wanted, book, place, tree, &mut ends[..n], work, out, counts)?;
    Ok(Inferred {
        length: table.length,
        states: table.states,
        joins: n - table.states,
        distinct,
        counts: table.counts,
    })
}
