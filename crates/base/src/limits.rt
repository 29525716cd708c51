// The numbers that docs/SCOPE.md fixes, by the names that specs/Limits has for them.

// At most so many names, of at most so many bytes.
pub const NAME_LIMIT: u8 = 64;

pub const NAME_BYTES: usize = 32;

// At most so many rows in a book, of at most so many entries.
pub const BOOK_ROWS: usize = 256;

pub const ROW_LIMIT: usize = 40;

// At most so many states, of a prefix tree and of a table.
pub const STATE_LIMIT: usize = 512;

// The same among the numbers of states, for none.
pub const NO_STATE: u16 = STATE_LIMIT as u16;

// k of a context and j of last names are at most this.
pub const SETTING_LIMIT: u8 = 8;

// The longest input, and the shortest working area, in bytes.
pub const INPUT_LIMIT: usize = 65535;

pub const WORK_BYTES: usize = 65536;

// A class field has so many bytes; a book's table at most so many, and its listing, and its counts.
pub const CLASS_BYTES: usize = 6;

pub const TABLE_BYTES: usize = 5830;

pub const LISTING_BYTES: usize = 32768;

pub const COUNTS_BYTES: usize = 5 * STATE_LIMIT + 2 * STATE_LIMIT;

// Elements of a plan are nested at most so deep; the rows of a plan have at most so many bytes.
pub const PLAN_DEPTH: usize = 16;

pub const ROWS_BYTES: usize = BOOK_ROWS * (3 + ROW_LIMIT);

// The marks of fields.
// Stays: (d) marks and kinds are bytes of the files: a mark is matched where it is read and put where it is written, and the numbers of
// kinds stand in patterns alone, from which `judging::classes::Rule` is made.
pub const NAME_MARK: u8 = 1;

pub const CLASS_MARK: u8 = 2;

pub const ROW_MARK: u8 = 3;

pub const STATE_MARK: u8 = 4;

pub const COUNT_MARK: u8 = 5;

// The kinds of classes.
pub const CONTEXT_KIND: u8 = 0;

pub const SEEN_SET_KIND: u8 = 1;

pub const LAST_NAMES_KIND: u8 = 2;
