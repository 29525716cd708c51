// What the edges of books, of tables and of plans share: memory to lend, files put together from parts, and the line that says what came of
// one.
ghost use Rattle.std.specs.Prelude.{◌≡◌, ◌+◌, ◌*◌, ◌<◌, ◌≤◌, ◌++◌, length, take};

use base::limits::WORK_BYTES;
use std::io;
use writing::copy_in;

// The length of the longest file that is put together.
const ROOM: usize = 4096;

// 4,096 zeros: an output, and a working area that is too short.
pub fn buffer() -> [u8; 4096]
    ensures { length result ≡ 4096 }
{
    [0; 4096]
}

// 65,536 zeros: a working area, and an input that is too long.
pub fn large_buffer() -> [u8; WORK_BYTES]
    ensures { length result ≡ 65536 }
{
    [0; WORK_BYTES]
}

// A file put together from parts: a part that does not fit is left out.
#[derive(Drop)]
pub struct Draft {
    room: [u8; ROOM],
    len: usize,
    ghost within: { len ≤ 4096 },
}

impl Draft {
    // A file of no bytes.
    pub fn new() -> Draft
        ensures { result.len ≡ 0 }
    {
        Draft {
            room: [0; ROOM],
            len: 0,
        }
    }

    // Appends a part, or leaves the file as it is.
    pub fn put(&mut self, part: &[u8])
        ensures fits { self.old.len + length part.now ≤ 4096 →
            take self.new.len self.new.room ≡ take self.old.len self.old.room ++ part.now }
        ensures longer { self.old.len + length part.now ≤ 4096 → self.new.len ≡ self.old.len + length part.now }
        ensures left_out { 4096 < self.old.len + length part.now → self.new ≡ self.old }
        ensures within { self.new.len ≤ 4096 }
    {
        if part.len() <= ROOM - self.len {
            self.len = copy_in(&mut self.room, self.len, part);
        }
    }

    // The file.
    pub fn bytes(&self) -> &[u8]
        ensures { result.now ≡ take self.now.len self.now.room }
    {
        &self.room[..self.len]
    }
}

// One name, snack.
pub fn one_name() -> Draft
    ensures { result.len ≡ 8 }
{
    let mut file = Draft::new();
    file.put(b"\x01\x00\x05snack");
    file
}

// The names a00, a01 and so on, so many.
pub fn named(count: u8) -> Draft
    ensures { result.len ≡ 6 * count }
{
    let mut file = Draft::new();
    for i in 0..count {
        file.put(&[1, 0, 3, b'a', b'0' + i / 10, b'0' + i % 10]);
    }
    file
}

// What was tried, and what came of it.
pub fn say(rt: &impl Print, tried: &str, line: &[u8]) -> io::Result<()> {
    print!(rt; "{tried}: ")?;
    rt.write_all(line)
}

// What was tried, and a number.
pub fn count(rt: &impl Print, tried: &str, word: &str, number: u64) -> io::Result<()> {
    println!(rt; "{tried}: {word}{number}")
}
