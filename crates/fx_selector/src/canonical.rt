//! The canonical text of a tree.
ghost use Rattle.std.specs.Prelude.{◌≡◌, ◌++◌, ◌∷◌, [], ◌==◌, if◌then◌else◌, OnOk, codes, map, nat_eq};
ghost use Rattle.std.specs.List.{list_any};
ghost use Rattle.fx_selector.specs.Tree.{quote_of};
ghost use Rattle.fx_selector.specs.Canonical.{canonical_text, between, texts, quoted, braced};
ghost use Rattle.fx_selector.specs.Nodes.{tree, trees_of, label_tree};

use crate::node::{Node, Test};
use fx_base::{Memory, Text};

#[cycle(canonical)]
pub fn write_node(out: &mut Vec<u8>, node: &Node) -> Result<(), Memory>
    ensures { OnOk result (out.new.items ≡ out.old.items ++ canonical_text (tree node.now)) }
{
    match node {
        Node::All => write(out, b"all()"),
        Node::Global => write(out, b"global()"),
        Node::Label(key, test) => write_label(out, key, test),
        Node::Not(inner) => write_not(out, inner),
        Node::And(parts) => write_group(out, b" && ", parts),
        Node::Or(parts) => write_group(out, b" || ", parts),
    }
}

#[cycle(canonical)]
fn write_not(out: &mut Vec<u8>, inner: &Node) -> Result<(), Memory>
    ensures { OnOk result (out.new.items ≡ out.old.items ++ (codes "!" ++ canonical_text (tree inner.now))) }
{
    write(out, b"!")?;
    write_node(out, inner)?;
    Ok(())
}

#[cycle(canonical)]
fn write_group(out: &mut Vec<u8>, mark: &[u8], parts: &[Node]) -> Result<(), Memory>
    ensures { OnOk result (out.new.items ≡ out.old.items ++ (codes "(" ++ (between mark.now
        (texts (trees_of parts.now)) ++ codes ")"))) }
{
    write(out, b"(")?;
    write_joined(out, mark, parts)?;
    write(out, b")")?;
    Ok(())
}

#[cycle(canonical)]
fn write_joined(out: &mut Vec<u8>, mark: &[u8], parts: &[Node]) -> Result<(), Memory>
    ensures { OnOk result (out.new.items ≡ out.old.items ++ between mark.now (texts (trees_of parts.now))) }
{
    for (place, part) in parts.iter().enumerate() {
        write_between(out, mark, place)?;
        write_node(out, part)?;
    }
    Ok(())
}

fn write_label(out: &mut Vec<u8>, key: &Text, test: &Test) -> Result<(), Memory>
    ensures { OnOk result (out.new.items ≡ out.old.items ++ canonical_text (label_tree key.now test.now)) }
{
    match test {
        Test::Present => write_has(out, key),
        Test::Equal(value) => write_value(out, key, b" == ", value),
        Test::Unequal(value) => write_value(out, key, b" != ", value),
        Test::Within(values) => write_set(out, key, b" in ", values),
        Test::Outside(values) => write_set(out, key, b" not in ", values),
        Test::Contains(part) => write_value(out, key, b" contains ", part),
        Test::Starts(part) => write_value(out, key, b" starts with ", part),
        Test::Ends(part) => write_value(out, key, b" ends with ", part),
    }
}

fn write_has(out: &mut Vec<u8>, key: &Text) -> Result<(), Memory>
    ensures { OnOk result (out.new.items ≡ out.old.items ++ (codes "has(" ++ (key.now ++ codes ")"))) }
{
    write(out, b"has(")?;
    write(out, key.bytes())?;
    write(out, b")")?;
    Ok(())
}

fn write_value(out: &mut Vec<u8>, key: &Text, words: &[u8], value: &Text) -> Result<(), Memory>
    ensures { OnOk result (out.new.items ≡ out.old.items ++ (key.now ++ (words.now ++ quoted value.now))) }
{
    write(out, key.bytes())?;
    write(out, words)?;
    write_quoted(out, value)?;
    Ok(())
}

fn write_set(out: &mut Vec<u8>, key: &Text, words: &[u8], values: &[Text]) -> Result<(), Memory>
    ensures { OnOk result (out.new.items ≡ out.old.items ++ (key.now ++ (words.now ++ braced values.now))) }
{
    write(out, key.bytes())?;
    write(out, words)?;
    write(out, b"{")?;
    write_listed(out, values)?;
    write(out, b"}")?;
    Ok(())
}

fn write_listed(out: &mut Vec<u8>, values: &[Text]) -> Result<(), Memory>
    ensures { OnOk result (out.new.items ≡ out.old.items ++ between (codes ", ") (map quoted values.now)) }
{
    for (place, value) in values.iter().enumerate() {
        write_between(out, b", ", place)?;
        write_quoted(out, value)?;
    }
    Ok(())
}

/// The mark, unless the first of a row follows.
fn write_between(out: &mut Vec<u8>, mark: &[u8], place: usize) -> Result<(), Memory>
    ensures { OnOk result (out.new.items ≡ out.old.items ++ (if place == 0 then [] else mark.now)) }
{
    if place == 0 {
        return Ok(());
    }
    write(out, mark)
}

fn write_quoted(out: &mut Vec<u8>, value: &Text) -> Result<(), Memory>
    ensures { OnOk result (out.new.items ≡ out.old.items ++ quoted value.now) }
{
    let quote = quote_for(value.bytes());
    out.push(quote)?;
    out.extend_from_slice(value.bytes())?;
    out.push(quote)?;
    Ok(())
}

/// The quote in which a string stands.
pub fn quote_for(value: &[u8]) -> u8
    ensures { result ≡ quote_of value.now }
{
    if has_double_quote(value) { b'\'' } else { b'"' }
}

fn has_double_quote(value: &[u8]) -> bool
    ensures { result ≡ list_any (λ c. nat_eq c 34) value.now }
{
    value.iter().any(|byte| *byte == b'"')
}

fn write(out: &mut Vec<u8>, bytes: &[u8]) -> Result<(), Memory>
    ensures { OnOk result (out.new.items ≡ out.old.items ++ bytes.now) }
{
    out.extend_from_slice(bytes)?;
    Ok(())
}
