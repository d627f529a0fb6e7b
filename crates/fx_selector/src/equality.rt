//! Whether two trees are one.
ghost use Rattle.std.specs.Prelude.{◌≡◌, ◌↔◌, IsTrue, []};
ghost use Rattle.fx_selector.specs.Nodes.{tree, trees_of, label_tree};

use crate::node::{Node, Test};
use fx_base::Text;

#[cycle(equality)]
pub fn same_node(a: &Node, b: &Node) -> bool
    ensures { IsTrue result ↔ (tree a.now ≡ tree b.now) }
{
    match (a, b) {
        (Node::All, Node::All) => true,
        (Node::Global, Node::Global) => true,
        (Node::Label(key, test), Node::Label(other_key, other)) => same_label(
            key, test, other_key, other,
        ),
        (Node::Not(inner), Node::Not(other)) => same_node(inner, other),
        (Node::And(parts), Node::And(others)) => same_nodes(parts, others),
        (Node::Or(parts), Node::Or(others)) => same_nodes(parts, others),
        _ => false,
    }
}

#[cycle(equality)]
fn same_nodes(a: &[Node], b: &[Node]) -> bool
    ensures { IsTrue result ↔ (trees_of a.now ≡ trees_of b.now) }
{
    let mut rest = b;
    for x in a {
        let Some((y, others)) = rest.split_first() else {
            return false;
        };
        if !same_node(x, y) {
            return false;
        }
        rest = others;
    }
    rest.is_empty()
}

fn same_label(key: &Text, test: &Test, other_key: &Text, other: &Test) -> bool
    ensures { IsTrue result ↔ (label_tree key.now test.now ≡ label_tree other_key.now other.now) }
{
    key == other_key && same_test(test, other)
}

fn same_test(test: &Test, other: &Test) -> bool
    ensures { IsTrue result ↔ (label_tree [] test.now ≡ label_tree [] other.now) }
{
    match (test, other) {
        (Test::Present, Test::Present) => true,
        (Test::Equal(a), Test::Equal(b)) => a == b,
        (Test::Unequal(a), Test::Unequal(b)) => a == b,
        (Test::Within(a), Test::Within(b)) => same_values(a, b),
        (Test::Outside(a), Test::Outside(b)) => same_values(a, b),
        (Test::Contains(a), Test::Contains(b)) => a == b,
        (Test::Starts(a), Test::Starts(b)) => a == b,
        (Test::Ends(a), Test::Ends(b)) => a == b,
        _ => false,
    }
}

fn same_values(a: &[Text], b: &[Text]) -> bool
    ensures { IsTrue result ↔ (a.now ≡ b.now) }
{
    a == b
}
