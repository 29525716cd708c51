// The joining of a book's prefix tree by the rule of its class.
ghost use Rattle.std.specs.Prelude.{◌≡◌, List, length};
ghost use Rattle.model.specs.Fields.{ClassOk};
ghost use Rattle.model.specs.Classes.{Word};
ghost use Rattle.judging.specs.Classes.{class_in};
ghost use Rattle.inference.specs.Books.{TreeIn, JoinedBy};

use contexts::join_by_context;
use functions::{join_by_last, join_by_seen};
use indexed::Tree;
use judging::classes::{Class, Rule};

// Joins by the class's rule until none applies. The groups may hold anything at first.
pub fn join_by_class(class: Class, tree: Tree, ends: &[u16], groups: &mut [u16])
    requires class_ok { ClassOk (class_in class) }
    requires size { length groups.old ≡ length tree.parents.now }
    requires ends_size { length ends.now ≡ length groups.old }
    ensures { (rows : List Word) → TreeIn rows tree.entry.parents.now tree.entry.names.now ends.now →
        JoinedBy (class_in class) rows tree.entry.parents.now tree.entry.names.now groups.new }
{
    match Rule::try_from(class).unwrap() {
        Rule::Context { k, h } => join_by_context(k as usize, h as usize, tree, groups),
        Rule::SeenSet => join_by_seen(tree, ends, groups),
        Rule::LastNames { j } => join_by_last(j as usize, tree, ends, groups),
    }
}
