// Arcs of one kind, as they are handed from function to function.
ghost use Rattle.std.specs.Prelude.{◌≡◌, length};

// For each arc the state that it leads out to, and its key.
#[derive(Clone, Copy)]
pub struct Arcs<'a> {
    pub outs: &'a [u16],
    pub keys: &'a [u8],
    pub ghost even: { length outs.now ≡ length keys.now },
}
