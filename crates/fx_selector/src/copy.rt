//! Copies of a tree.
ghost use Rattle.std.specs.Prelude.{◌≡◌, IfOk, List, ℕ, map};
ghost use Rattle.fx_selector.specs.Nodes.{tree, label_tree};

use crate::node::{Node, Test};
use fx_base::Text;
use std::alloc::AllocError;

/// A copy in the memory of the node's own allocator.
#[cycle(copy)]
pub fn copy_of(node: &Node) -> Result<Node, AllocError>
    ensures { IfOk result (λ copy. tree copy ≡ tree node.now) }
{
    match node {
        Node::All => Ok(Node::All),
        Node::Global => Ok(Node::Global),
        Node::Label(key, test) => Ok(Node::Label(key.clone()?, test_copy(test)?)),
        Node::Not(inner) => Ok(Node::Not(Box::new(*Box::allocator(inner), copy_of(inner)?)?)),
        Node::And(parts) => Ok(Node::And(copies_of(parts)?)),
        Node::Or(parts) => Ok(Node::Or(copies_of(parts)?)),
    }
}

#[cycle(copy)]
fn copies_of(parts: &Vec<Node>) -> Result<Vec<Node>, AllocError>
    ensures { IfOk result (λ copies. map tree copies.items ≡ map tree parts.now.items) }
{
    let mut copies = Vec::new(*parts.allocator());
    for part in parts {
        copies.push(copy_of(part)?)?;
    }
    Ok(copies)
}

pub fn test_copy(test: &Test) -> Result<Test, AllocError>
    ensures { IfOk result (λ copy. (k : List ℕ) → label_tree k copy ≡ label_tree k test.now) }
{
    Ok(match test {
        Test::Present => Test::Present,
        Test::Equal(value) => Test::Equal(value.clone()?),
        Test::Unequal(value) => Test::Unequal(value.clone()?),
        Test::Within(values) => Test::Within(values.clone()?),
        Test::Outside(values) => Test::Outside(values.clone()?),
        Test::Contains(part) => Test::Contains(part.clone()?),
        Test::Starts(part) => Test::Starts(part.clone()?),
        Test::Ends(part) => Test::Ends(part.clone()?),
    })
}
