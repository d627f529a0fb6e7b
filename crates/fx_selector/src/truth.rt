//! Where a selector holds.
ghost use Rattle.std.specs.Prelude.{◌≡◌, Some, None, nat_eq};
ghost use Rattle.std.specs.Cmp.Lexicographic.{pointwise};
ghost use Rattle.std.specs.Option.{option_copied};
ghost use Rattle.fx_selector.specs.Truth.{holds, hold_all, hold_some, has_part, is_among};
ghost use Rattle.fx_selector.specs.Nodes.{tree, trees_of, label_tree};
ghost use Rattle.fx_selector.specs.Asked.{is_answered};

use crate::labels::Labels;
use crate::node::{Node, Test};
use fx_base::Text;

#[cycle(truth)]
pub fn matches(node: &Node, labels: &Labels) -> bool
    ensures { result ≡ holds (tree node.now) labels.now }
{
    match node {
        Node::All => true,
        Node::Global => true,
        Node::Label(key, test) => label_matches(key, test, labels),
        Node::Not(inner) => !matches(inner, labels),
        Node::And(parts) => all_match(parts, labels),
        Node::Or(parts) => some_match(parts, labels),
    }
}

#[cycle(truth)]
fn all_match(parts: &[Node], labels: &Labels) -> bool
    ensures { result ≡ hold_all (trees_of parts.now) labels.now }
{
    for part in parts {
        if !matches(part, labels) {
            return false;
        }
    }
    true
}

#[cycle(truth)]
fn some_match(parts: &[Node], labels: &Labels) -> bool
    ensures { result ≡ hold_some (trees_of parts.now) labels.now }
{
    for part in parts {
        if matches(part, labels) {
            return true;
        }
    }
    false
}

fn label_matches(key: &Text, test: &Test, labels: &Labels) -> bool
    ensures { result ≡ holds (label_tree key.now test.now) labels.now }
{
    answers(test, labels.get(key.bytes()))
}

/// Whether a label that is there, or is absent, passes.
fn answers(test: &Test, found: Option<&[u8]>) -> bool
    ensures { result ≡ is_answered test.now (option_copied found.entry) }
{
    match found {
        Some(found) => passes(test, found),
        None => passes_absent(test),
    }
}

fn passes_absent(test: &Test) -> bool
    ensures { result ≡ is_answered test.now None }
{
    matches!(test, Test::Unequal(_) | Test::Outside(_))
}

fn passes(test: &Test, found: &[u8]) -> bool
    ensures { result ≡ is_answered test.now (Some found.now) }
{
    match test {
        Test::Present => true,
        Test::Equal(value) => is_same(value, found),
        Test::Unequal(value) => !is_same(value, found),
        Test::Within(values) => is_in(values, found),
        Test::Outside(values) => !is_in(values, found),
        Test::Contains(part) => has(found, part.bytes()),
        Test::Starts(part) => found.starts_with(part.bytes()),
        Test::Ends(part) => found.ends_with(part.bytes()),
    }
}

fn is_same(value: &Text, found: &[u8]) -> bool
    ensures { result ≡ pointwise nat_eq found.now value.now }
{
    found == value.bytes()
}

fn is_in(values: &[Text], found: &[u8]) -> bool
    ensures { result ≡ is_among values.now found.now }
{
    values.iter().any(|value| value.bytes() == found)
}

/// Whether the part stands in the text in one piece.
fn has(text: &[u8], part: &[u8]) -> bool
    ensures { result ≡ has_part part.now text.now }
{
    let mut rest = text;
    while let Some((_, more)) = rest.split_first() {
        if rest.starts_with(part) {
            return true;
        }
        rest = more;
    }
    rest.starts_with(part)
}
