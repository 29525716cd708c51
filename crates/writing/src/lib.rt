// The writer: bytes written once into a lent output, one writing after the other. Each function writes its bytes from offset `at`, or at
// the front, leaves the rest of the output as it was, and returns the offset after them; the caller sees that they fit.
// Stays: (d) the output and an offset go in, and the next offset comes back: a state's head and a row's are written after what follows
// them, at an earlier offset, so that no cursor serves, and `Fits` and `Put` speak of the output before and after.
#![tactic(auto)]

pub mod decimals;

ghost use Rattle.std.specs.Prelude.{◌≡◌, [], ◌∷◌, ◌+◌, ◌≤◌, ◌<◌, length};
ghost use Rattle.base.specs.Limits.{when, number_limit};
ghost use Rattle.model.specs.Fields.{class_from};
ghost use Rattle.model.specs.Tables.{two_bytes, field_bytes, class_field};
ghost use Rattle.writing.specs.Writing.{Fits, Put, field_head, state_head, arc_part, front_of};

use base::limits::{CLASS_MARK, STATE_MARK};

// All of src.
pub fn copy_in(out: &mut [u8], at: usize, src: &[u8]) -> usize
    requires { Fits out.old at src.now }
    ensures { Put out.old out.new at src.now result }
{
    // Stays: (a) the C interface: `copy_from_slice` takes memmove, and the library takes memcpy and memset alone (include/plans.h).
    for (i, byte) in src.iter().enumerate() {
        out[at + i] = *byte;
    }
    at + src.len()
}

// One byte.
pub fn put_byte(out: &mut [u8], at: usize, byte: u8) -> usize
    requires { Fits out.old at (byte ∷ []) }
    ensures { Put out.old out.new at (byte ∷ []) result }
{
    out[at] = byte;
    at + 1
}

// A number as two bytes, high byte first.
pub fn put_two(out: &mut [u8], at: usize, number: usize) -> usize
    requires fits { Fits out.old at (two_bytes number) }
    requires number_lt_number_limit { number < number_limit }
    ensures { Put out.old out.new at (two_bytes number) result }
{
    copy_in(out, at, &(number as u16).to_be_bytes())
}

// A field's mark, and its length.
pub fn put_head(out: &mut [u8], at: usize, mark: u8, count: usize) -> usize
    requires fits { Fits out.old at (field_head mark count) }
    requires count_lt_number_limit { count < number_limit }
    ensures { Put out.old out.new at (field_head mark count) result }
{
    let next = put_byte(out, at, mark);
    put_two(out, next, count)
}

// A field with this mark and these bytes.
#[tactic(auto, unfolding(model::specs::Tables::field_bytes))]
pub fn put_field(out: &mut [u8], at: usize, mark: u8, body: &[u8]) -> usize
    requires fits { Fits out.old at (field_bytes mark body.now) }
    requires body_len_bound { length body.now < number_limit }
    ensures { Put out.old out.new at (field_bytes mark body.now) result }
{
    let next = put_head(out, at, mark, body.len());
    copy_in(out, next, body)
}

// A class field.
pub fn put_class(out: &mut [u8], at: usize, class: [u8; 3]) -> usize
    requires { Fits out.old at (class_field (class_from class)) }
    ensures { Put out.old out.new at (class_field (class_from class)) result }
{
    put_field(out, at, CLASS_MARK, &class)
}

// A front with the names of another file, whose fields are its first bytes, so many: these, and then a class field.
pub fn put_front(out: &mut [u8], file: &[u8], names: usize, class: [u8; 3]) -> usize
    requires names_in_bounds { names ≤ length file.now }
    requires fits { Fits out.old 0 (front_of file.now names (class_from class)) }
    ensures { Put out.old out.new 0 (front_of file.now names (class_from class)) result }
{
    let next = copy_in(out, 0, &file[..names]);
    put_class(out, next, class)
}

// The first four bytes of a state field whose arcs take so many bytes.
pub fn put_state(out: &mut [u8], at: usize, accepting: bool, bytes: usize) -> usize
    requires fits { Fits out.old at (state_head accepting bytes) }
    requires bytes_bound { 1 + bytes < number_limit }
    ensures { Put out.old out.new at (state_head accepting bytes) result }
{
    let next = put_head(out, at, STATE_MARK, 1 + bytes);
    put_byte(out, next, accepting as u8)
}

// An arc of a state field: its name and its target, as a field's mark and length.
pub fn put_arc(out: &mut [u8], at: usize, name: u8, target: usize) -> usize
    requires fits { Fits out.old at (arc_part name target) }
    requires target_lt_number_limit { target < number_limit }
    ensures { Put out.old out.new at (arc_part name target) result }
{
    put_head(out, at, name, target)
}
