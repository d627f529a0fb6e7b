//! Selectors of namespaces and service accounts, as selectors of endpoints.
ghost use Rattle.std.specs.Prelude.{◌≡◌, ◌++◌, IfOk, map};
ghost use Rattle.fx_selector.specs.Nodes.{tree};
ghost use Rattle.fx_selector.specs.Tree.{has};
ghost use Rattle.fx_selector.specs.Rewriting.{rewritten};

use crate::copy::test_copy;
use crate::node::{Node, Test};
use fx_base::{Memory, Text};
use std::alloc::Global;

/// The node with the prefix before each key; `all()` asks for the name, and `global()` for its absence.
#[cycle(rewriting)]
pub fn rewrite(alloc: Global, prefix: &[u8], name: &[u8], node: &Node) -> Result<Node, Memory>
    ensures { IfOk result (λ n. tree n ≡ rewritten prefix.now name.now (tree node.now)) }
{
    match node {
        Node::All => Ok(present(alloc, name)?),
        Node::Global => Ok(Node::Not(Box::new(alloc, present(alloc, name)?)?)),
        Node::Label(key, test) => Ok(Node::Label(prefixed(alloc, prefix, key)?, test_copy(test)?)),
        Node::Not(inner) => Ok(Node::Not(Box::new(alloc, rewrite(alloc, prefix, name, inner)?)?)),
        Node::And(parts) => Ok(Node::And(rewrite_all(alloc, prefix, name, parts)?)),
        Node::Or(parts) => Ok(Node::Or(rewrite_all(alloc, prefix, name, parts)?)),
    }
}

#[cycle(rewriting)]
fn rewrite_all(
    alloc: Global,
    prefix: &[u8],
    name: &[u8],
    parts: &[Node],
) -> Result<Vec<Node>, Memory>
    ensures { IfOk result (λ nodes. map tree nodes.items ≡ map (λ n. rewritten prefix.now name.now (tree n)) parts.now) }
{
    let mut nodes = Vec::new(alloc);
    for part in parts {
        nodes.push(rewrite(alloc, prefix, name, part)?)?;
    }
    Ok(nodes)
}

fn present(alloc: Global, name: &[u8]) -> Result<Node, Memory>
    ensures { IfOk result (λ n. tree n ≡ has name.now) }
{
    Ok(Node::Label(Text::new(alloc, name)?, Test::Present))
}

fn prefixed(alloc: Global, prefix: &[u8], key: &Text) -> Result<Text, Memory>
    ensures { IfOk result (λ text. text ≡ prefix.now ++ key.now) }
{
    let mut bytes = Vec::from_slice(alloc, prefix)?;
    bytes.extend_from_slice(key.bytes())?;
    Text::from_vec(bytes)
}
