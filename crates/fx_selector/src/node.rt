//! The tree of a selector, in boxes.
ghost use Rattle.std.specs.Prelude.{◌≡◌, ◌<◌, length, map, List, ℕ, if◌then◌else◌};
ghost use Rattle.fx_selector.specs.Tree.{together, each, some, within, outside};
ghost use Rattle.fx_selector.specs.Nodes.{tree, label_tree};

use fx_base::Text;

/// What a selector asks of the label at one key. The values of a set are distinct and ascending.
#[derive(Debug, Drop)]
pub enum Test {
    Present,
    Equal(Text),
    Unequal(Text),
    Within(Vec<Text>),
    Outside(Vec<Text>),
    Contains(Text),
    Starts(Text),
    Ends(Text),
}

impl Test {
    /// Whether the label is among the values, or is not.
    pub fn one_of(set: Vec<Text>, not: bool) -> Test
        ensures { (k : List ℕ) → label_tree k result ≡ (if not then outside k set.items else within k set.items) }
    {
        if not {
            Test::Outside(set)
        } else {
            Test::Within(set)
        }
    }
}

#[derive(Debug, Drop)]
pub enum Node {
    All,
    Global,
    Label(Text, Test),
    Not(Box<Node>),
    And(Vec<Node>),
    Or(Vec<Node>),
}

/// One operand, or the And of two and more.
pub fn all_of(parts: Vec<Node>) -> Node
    requires { 0 < length parts.items }
    ensures { tree result ≡ together each (map tree parts.items) }
{
    let mut parts = parts;
    if parts.len() == 1 {
        return parts.swap_remove(0);
    }
    Node::And(parts)
}

/// One operand, or the Or of two and more.
pub fn some_of(parts: Vec<Node>) -> Node
    requires { 0 < length parts.items }
    ensures { tree result ≡ together some (map tree parts.items) }
{
    let mut parts = parts;
    if parts.len() == 1 {
        return parts.swap_remove(0);
    }
    Node::Or(parts)
}
