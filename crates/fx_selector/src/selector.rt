//! A selector: a tree that is true or false of labels.
ghost use Rattle.std.specs.Prelude.{◌≡◌, ◌≤◌, ◌+◌, ◌-◌, ◌^◌, ◌<◌, min, length, map, All, IfOk, IfErr, IsErrOf, MatchResult, OnOk, if◌then◌else◌};
ghost use Rattle.fx_selector.specs.Tree.{Tree, IsSelector, AreTrees, many, IsKey, IsString, AreStrings, height, and_of, set_of, equal, within, outside, has, negated};
ghost use Rattle.fx_selector.specs.Nodes.{tree};
ghost use Rattle.fx_selector.specs.Truth.{holds};
ghost use Rattle.fx_selector.specs.Canonical.{canonical_text};
ghost use Rattle.fx_selector.specs.Needs.{needed, need_in};
ghost use Rattle.fx_selector.specs.Rewriting.{namespace_tree, service_account_tree};
ghost use Rattle.fx_selector.specs.Places.{Spells, Means, IsSelectorFault};
ghost use Rattle.fx_selector.specs.SameTree.{same_tree, same_tree_equiv, one_tree};
ghost use Rattle.std.specs.Cmp.{partial_equiv_from_equiv};

use crate::fault::SelectorFault;
use crate::grammar::ascending;
use crate::labels::Labels;
use crate::needs::Requirement;
use crate::node::{Node, Test, all_of};
use crate::{canonical, copy, equality, needs, rewriting, truth, whole};
use fx_base::{Exact, Memory, Text, Ticker};
use std::alloc::{AllocError, Global};
use std::marker::Model;

/// The most bytes of a text.
const TEXT_LIMIT: usize = 65_536;

/// A selector's tree, at most 140 levels deep.
#[derive(Debug, Drop)]
pub struct Selector {
    node: Node,
}

impl Model for Selector {
    ghost use Rattle.fx_selector.specs.Tree.{Tree, IsSelector};
    ghost use Rattle.fx_selector.specs.TreeCode.{tree_code};

    ghost Value = { Tree };

    ghost coded = { tree_code };

    ghost use Rattle.fx_selector.specs.Nodes.{tree};

    ghost view = { λ a. tree a.node };

    ghost invariant = { λ a. IsSelector (tree a.node) };
}

impl Selector {
    /// The tree of a text.
    ///
    /// A text has at most 65,536 bytes, a key at most 512, and at most 64 `!` and grouping `(` are open around one
    /// place. A text of spaces and tabs says `all()`.
    pub fn parse(alloc: Global, text: &[u8]) -> Result<Selector, SelectorFault>
        ensures tree { IfOk result (Means text.now) }
        ensures complete { (t : Tree) → Means text.now t →
            MatchResult result (λ selector. selector ≡ t) (λ fault. fault ≡ SelectorFault.Memory) }

        // The length is tested before all else; of the other faults the one with the least place is given.
        ensures too_long { 65536 < length text.now → IsErrOf result SelectorFault.TooLong }
        ensures fault { IfErr result (IsSelectorFault text.now) }

        ensures selector { IfOk result IsSelector }
        ensures shallow { IfOk result (λ selector. height selector ≤ 131) }
    {
        if text.len() > TEXT_LIMIT {
            return Err(SelectorFault::TooLong);
        }
        match whole::parse(alloc, text) {
            Ok(node) => Ok(Selector { node }),
            Err(fault) => Err(fault),
        }
    }

    /// Whether the selector holds on the labels. Ticks once, and takes no memory.
    pub fn matches<T: Ticker>(&self, labels: &Labels, ticks: &mut T) -> bool
        ensures truth { result ≡ holds self.now labels.now }
        ensures tick { T.number ticks.new ≡ min (T.number ticks.old + 1) (2 ^ 64 - 1) }
    {
        ticks.tick();
        truth::matches(&self.node, labels)
    }

    /// What labels need to have for the selector to hold on them. Takes no memory.
    pub fn requirement(&self) -> Option<Requirement<'_>>
        ensures { need_in result ≡ needed self.now }
    {
        needs::requirement_of(&self.node)
    }

    /// The text by which selectors are told apart.
    pub fn canonical(&self, alloc: Global) -> Result<Text, Memory>
        ensures text { IfOk result (λ text. text ≡ canonical_text self.now) }
        ensures spells { IfOk result (λ text. Spells text self.now) }
        ensures selector { IsSelector self.now }
    {
        let mut out = Vec::new(alloc);
        canonical::write_node(&mut out, &self.node)?;
        Ok(Text::from_vec(out)?)
    }

    /// The selector of namespaces as one of endpoints.
    pub fn rewrite_namespace(&self, alloc: Global) -> Result<Selector, Memory>
        requires { height self.now ≤ 139 }
        ensures tree { IfOk result (λ selector. selector ≡ namespace_tree self.now) }
        ensures selector { IfOk result IsSelector }
        ensures shallow { IfOk result (λ selector. height selector ≤ height self.now + 1) }
    {
        let node = rewriting::rewrite(alloc, b"pcns.", b"projectcalico.org/namespace", &self.node)?;
        Ok(Selector { node })
    }

    /// The selector of service accounts as one of endpoints.
    pub fn rewrite_service_account(&self, alloc: Global) -> Result<Selector, Memory>
        requires { height self.now ≤ 139 }
        ensures tree { IfOk result (λ selector. selector ≡ service_account_tree self.now) }
        ensures selector { IfOk result IsSelector }
        ensures shallow { IfOk result (λ selector. height selector ≤ height self.now + 1) }
    {
        let name = b"projectcalico.org/serviceaccount";
        let node = rewriting::rewrite(alloc, b"pcsa.", name, &self.node)?;
        Ok(Selector { node })
    }

    /// The And of the parts in their order; one part is itself, and none says `all()`.
    pub fn and(alloc: Global, parts: Vec<Selector>) -> Result<Selector, Memory>
        requires { All (λ t. height t ≤ 139) parts.items }
        ensures tree { IfOk result (λ selector. selector ≡ and_of parts.items) }
        ensures selector { IfOk result IsSelector }
    {
        let nodes = nodes_of(alloc, parts)?;
        if nodes.is_empty() {
            return Ok(Selector { node: Node::All });
        }
        Ok(Selector {
            node: all_of(nodes),
        })
    }

    /// `key == "value"`.
    pub fn equal(alloc: Global, key: &[u8], value: &[u8]) -> Result<Selector, Memory>
        requires key { IsKey key.now }
        requires value { IsString value.now }
        ensures tree { IfOk result (λ selector. selector ≡ equal key.now value.now) }
        ensures selector { IfOk result IsSelector }
    {
        let test = Test::Equal(Text::new(alloc, value)?);
        Ok(Selector {
            node: Node::Label(Text::new(alloc, key)?, test),
        })
    }

    /// `key in {values}`, or `key not in {values}`.
    pub fn one_of(alloc: Global, key: &[u8], values: &[Text], not: bool) -> Result<Selector, Memory>
        requires key { IsKey key.now }
        requires values { AreStrings values.now }
        ensures tree { IfOk result (λ selector. selector
            ≡ (if not then outside key.now (set_of values.now) else within key.now (set_of values.now))) }
        ensures selector { IfOk result IsSelector }
    {
        let set = ascending(Vec::from_clones(alloc, values)?);
        Ok(Selector {
            node: Node::Label(Text::new(alloc, key)?, Test::one_of(set, not)),
        })
    }

    /// `has(key)`, or `!has(key)`.
    pub fn has_key(alloc: Global, key: &[u8], not: bool) -> Result<Selector, Memory>
        requires { IsKey key.now }
        ensures tree { IfOk result (λ selector. selector ≡ (if not then negated (has key.now) else has key.now)) }
        ensures selector { IfOk result IsSelector }
    {
        let node = Node::Label(Text::new(alloc, key)?, Test::Present);
        if not {
            return Ok(Selector {
                node: Node::Not(Box::new(alloc, node)?),
            });
        }
        Ok(Selector { node })
    }
}

fn nodes_of(alloc: Global, parts: Vec<Selector>) -> Result<Vec<Node>, Memory>
    ensures trees { IfOk result (λ nodes. map tree nodes.items ≡ parts.items) }
    ensures sound { OnOk result (AreTrees (many parts.items)) }
{
    let mut nodes = Vec::new(alloc);
    for part in parts {
        nodes.push(part.node)?;
    }
    Ok(nodes)
}

impl Clone for Selector {
    ghost is_clone = { λ a b. b ≡ a };

    fn clone(&self) -> Result<Self, AllocError> {
        Ok(Selector {
            node: copy::copy_of(&self.node)?,
        })
    }
}

impl PartialEq for Selector {
    ghost eq = { same_tree };

    ghost laws = { partial_equiv_from_equiv same_tree_equiv };

    fn eq(&self, other: &Self) -> bool {
        equality::same_node(&self.node, &other.node)
    }
}

impl Eq for Selector {
    ghost laws = { same_tree_equiv };
}

impl Exact for Selector {
    ghost same = { one_tree };

    ghost copies = { λ a b h. h };
}
