//! A type that holds itself through a list.
use crate::common::text;
use mt_containers::List;
use mt_tokens::Text;
use std::test::Fail;

/// A tree of texts.
#[cycle(tree)]
#[derive(Drop)]
enum Tree {
    Leaf(u32),
    Node(Text, List<Tree>),
}

/// The tree right below at a place.
fn child(tree: &Tree, at: usize) -> Option<&Tree> {
    match tree {
        Tree::Leaf(_) => None,
        Tree::Node(_, below) => below.get(at),
    }
}

#[test]
fn a_tree_has_lists_of_trees(rt: HostRuntime) -> Result<(), Fail> {
    let mut below = List::new(rt.alloc());
    below.push(Tree::Leaf(7))?;
    let tree = Tree::Node(text(&rt, "root")?, below);
    assert!(rt; matches!(child(&tree, 0), Some(Tree::Leaf(7))));
    assert!(rt; child(&tree, 1).is_none());
    assert!(rt; matches!(&tree, Tree::Node(name, _) if name.as_str() == "root"));
    Ok(())
}
