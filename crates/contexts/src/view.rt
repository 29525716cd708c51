// What a sweep goes by: the tree, its groups as they are when the sweep begins, and how many names in succession are to be walked
// after two arcs that it compares.
ghost use Rattle.std.specs.Prelude.{◌≡◌, length};
ghost use Rattle.indexed.specs.Partitions.{Labelled};

use indexed::Tree;

#[derive(Clone, Copy)]
pub struct View<'a> {
    pub j: usize,
    pub tree: Tree<'a>,
    pub old: &'a [u16],
    pub ghost size: { length old.now ≡ length tree.parents.now },
    pub ghost labelled: { Labelled (length old.now) old.now },
}
