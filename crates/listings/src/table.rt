// A table whose listing is written.
ghost use Rattle.tables.specs.Accepting.{TableRead};

use fields::Place;

// Its bytes, and where its parts stand in them.
#[derive(Clone, Copy)]
pub struct Table<'a> {
    pub bytes: &'a [u8],
    pub place: Place,
    pub ghost read: { TableRead bytes.now place },
}
