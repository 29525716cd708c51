// The pieces of a plan, as far as names do not matter: what stands before a tag, an end tag, the name of a tag that begins an element, and
// what ends such a tag.
ghost use Rattle.std.specs.Prelude.{◌≡◌, ◌≤◌, ◌<◌, length};
ghost use Rattle.written_plans.specs.Reading.{opened};
ghost use Rattle.plan_reading.specs.Pieces.{open_names, place_of, BeforeTag, follows_name, Stacked, NameBehind};
ghost use Rattle.plan_reading.specs.Pieces.{PieceFrom, AfterLess, ByteAt, NameFrom, CloseFrom, EndFrom};

use crate::opens::{Open, Stack};
use crate::scanning::{agree, is_text, is_white, name_end, skip};

// How far reading has come, between tags: the offset, and how many tags began an element.
#[derive(Clone, Copy)]
pub struct Reached {
    pub at: usize,
    pub tags: usize,
}

// A byte of a plan, or its end, that no plan can have at this offset.
#[derive(Clone, Copy, Debug, PartialEq, Eq)]
pub struct BadByte {
    pub at: usize,
}

// What stands next.
#[derive(Clone, Copy)]
pub enum Piece {
    // nothing but text or white space, up to the plan's end
    Rest(usize),
    // an end tag: where reading stands after it
    End(usize),
    // a tag that begins an element: where its name begins, and where it ends
    Name(usize, usize),
}

// What ends a tag that begins an element, after its name: `>` or `/>`, with the offset after it.
#[derive(Clone, Copy)]
pub enum Close {
    Full(usize),
    Empty(usize),
}

// Past the byte at this offset, which has to be this one.
fn expect(plan: &[u8], at: usize, byte: u8) -> Result<usize, BadByte>
    ensures { ByteAt plan.now at byte result }
{
    if at < plan.len() && plan[at] == byte {
        return Ok(at + 1);
    }
    Err(BadByte { at })
}

// Past what may stand before a tag: text inside an element, white space outside the outermost one.
fn before_tag(plan: &[u8], depth: usize, at: usize) -> usize
    requires { at ≤ length plan.now }
    ensures { BeforeTag plan.now depth at result }
{
    if depth == 0 {
        return skip(plan, at, is_white);
    }
    skip(plan, at, is_text)
}

// Whether the byte may stand after the name of a tag that begins an element.
fn follows_name(b: u8) -> bool
    ensures { result ≡ follows_name b }
{
    is_white(b) || matches!(b, b'/' | b'>')
}

// The name of a tag that begins an element, and a byte that may follow it.
#[tactic(auto, using(crate::proofs::PieceLaws::names_end))]
fn tag_name(plan: &[u8], at: usize) -> Result<Piece, BadByte>
    requires { at ≤ length plan.now }
    ensures { NameFrom plan.now at result }
{
    let end = name_end(plan, at);
    if at < end && end < plan.len() && follows_name(plan[end]) {
        return Ok(Piece::Name(at, end));
    }
    Err(BadByte { at: end })
}

// An end tag of this element, from after its `</` on.
#[tactic(auto, using(crate::proofs::PieceLaws::end_tags))]
fn end_tag(plan: &[u8], innermost: Open, at: usize) -> Result<usize, BadByte>
    requires name_behind { NameBehind innermost at }
    requires at_in_bounds { at ≤ length plan.now }
    ensures { EndFrom plan.now innermost at result }
{
    let stop = agree(plan, innermost.from, innermost.end, at);
    if stop - at < innermost.end - innermost.from {
        return Err(BadByte { at: stop });
    }
    expect(plan, skip(plan, stop, is_white), b'>')
}

// What ends a tag that begins an element, from after its name on.
#[tactic(auto, using(crate::proofs::PieceLaws::closes))]
pub fn tag_end(plan: &[u8], at: usize) -> Result<Close, BadByte>
    requires { at ≤ length plan.now }
    ensures { CloseFrom plan.now at result }
{
    let next = skip(plan, at, is_white);
    if next < plan.len() && plan[next] == b'/' {
        let last = expect(plan, next + 1, b'>')?;
        return Ok(Close::Empty(last));
    }
    let last = expect(plan, next, b'>')?;
    Ok(Close::Full(last))
}

// A tag, from after its `<` on.
#[tactic(auto, using(crate::proofs::PieceLaws::tags_at))]
fn tag_at(plan: &[u8], stack: &Stack, r: Reached) -> Result<Piece, BadByte>
    requires { Stacked plan.now stack.now.opens stack.now.depth r }
    ensures { PieceFrom plan.now stack.now.opens stack.now.depth
        (opened (open_names plan.now stack.now.opens stack.now.depth)) r.at r.tags result }
{
    match stack.innermost() {
        Some(innermost) if r.at < plan.len() && plan[r.at] == b'/' => {
            let at = end_tag(plan, innermost, r.at + 1)?;
            Ok(Piece::End(at))
        }
        _ => tag_name(plan, r.at),
    }
}

// What stands next, up to the name of a tag or the end of an end tag.
#[tactic(auto, using(crate::proofs::PieceLaws::pieces_next))]
pub fn next_piece(plan: &[u8], stack: &Stack, r: Reached) -> Result<Piece, BadByte>
    requires stacked { Stacked plan.now stack.now.opens stack.now.depth r }
    requires at_in_bounds { r.at < length plan.now }
    ensures piece_from { PieceFrom plan.now stack.now.opens stack.now.depth
        (place_of plan.now stack.now.opens stack.now.depth r) r.at r.tags result }
    ensures after_less { AfterLess r.at result }
{
    let at = before_tag(plan, stack.depth, r.at);
    if plan.len() <= at {
        return Ok(Piece::Rest(at));
    }
    if plan[at] != b'<' {
        return Err(BadByte { at });
    }
    if stack.depth == 0 && 0 < r.tags {
        return Err(BadByte { at });
    }
    tag_at(plan, stack, Reached { at: at + 1, ..r })
}
