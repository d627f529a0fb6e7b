//! What a selector needs of the labels that it holds on.
ghost use Rattle.std.specs.Prelude.{◌≡◌, None};
ghost use Rattle.fx_selector.specs.Nodes.{tree, trees_of, label_tree};
ghost use Rattle.fx_selector.specs.Needs.{needed, need_in, needed_from, has_values};

use crate::node::{Node, Test};
use fx_base::Text;
use std::slice;

/// A label that has to be there and, where its value counts, the values of which it has to have one.
#[derive(Clone, Copy, Debug)]
pub struct Requirement<'a> {
    pub key: &'a Text,
    pub values: Option<&'a [Text]>,
}

/// What labels need to have for this node to hold on them. A negation, an Or and the tests that an
/// absent label passes need nothing.
#[cycle(needs)]
pub fn requirement_of(node: &Node) -> Option<Requirement<'_>>
    ensures { need_in result ≡ needed (tree node.now) }
{
    match node {
        Node::Label(key, test) => label_requirement(key, test),
        Node::And(parts) => first_requirement(parts),
        _ => None,
    }
}

/// Of the first operand whose requirement names values, else of the first that has one.
#[cycle(needs)]
fn first_requirement(parts: &[Node]) -> Option<Requirement<'_>>
    ensures { need_in result ≡ needed_from None (trees_of parts.now) }
{
    let mut found = None;
    for part in parts {
        let requirement = requirement_of(part);
        if names_values(&requirement) {
            return requirement;
        }
        found = found.or(requirement);
    }
    found
}

fn names_values(requirement: &Option<Requirement<'_>>) -> bool
    ensures { result ≡ has_values (need_in requirement.now) }
{
    match requirement {
        Some(requirement) => requirement.values.is_some(),
        None => false,
    }
}

fn label_requirement<'a>(key: &'a Text, test: &'a Test) -> Option<Requirement<'a>>
    ensures { need_in result ≡ needed (label_tree key.now test.now) }
{
    let values = match test {
        Test::Equal(value) => Some(slice::from_ref(value)),
        Test::Within(values) => Some(values.as_slice()),
        Test::Present | Test::Contains(_) | Test::Starts(_) | Test::Ends(_) => None,
        Test::Unequal(_) | Test::Outside(_) => return None,
    };
    Some(Requirement { key, values })
}
