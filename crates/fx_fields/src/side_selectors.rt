//! Reads the selectors of a rule's side, and makes one of all but `notSelector`.
ghost use Rattle.std.specs.Prelude.{◌≡◌, ◌≤◌, All, IfOk, IfSome};
ghost use Rattle.serde_json.specs.View.{view};
ghost use Rattle.fx_selector.specs.Tree.{AreStrings, height};
ghost use Rattle.fx_fields.specs.Faults.{IsAnswerOf};
ghost use Rattle.fx_fields.specs.Paths.{text_of};
ghost use Rattle.fx_fields.specs.SideSelectors.{accounts_in, accounts_at, of_accounts, of_names, own_namespace, unnamed_namespace, namespace_part, earlier_parts, asked_by, positive_selector, side_selectors};

use crate::fault::ReadFault;
use crate::fields::{is_given, items, section};
use crate::path::Path;
use crate::rule_form::RulePlace;
use crate::selectors::{of_namespace, of_service_accounts, push_given, selector_at};
use crate::texts::TextForm;
use fx_base::{Memory, Seq, Text};
use fx_selector::Selector;
use serde_json::Value;
use std::alloc::Global;

/// What a side asks of the endpoints and network sets that have its addresses: what is to hold of one of them, and of none.
#[derive(Drop)]
pub struct SideSelectors {
    pub selector: Option<Selector>,
    pub not_selector: Option<Selector>,
}

/// The selectors of a side of a rule that stands in this place.
#[tactic(auto, unfolding(crate::specs::SideSelectors::side_selectors))]
pub fn read_selectors(
    alloc: Global,
    place: &RulePlace,
    path: &Path<'_>,
    side: &Value,
) -> Result<SideSelectors, ReadFault>
    ensures { IsAnswerOf (side_selectors place.now (text_of path.now) (view side.now)) result }
{
    let own = selector_at(alloc, path, "selector", side)?;
    let not_selector = selector_at(alloc, path, "notSelector", side)?;
    let namespaces = selector_at(alloc, path, "namespaceSelector", side)?;
    let accounts = accounts_at(alloc, path, side)?;
    let selector = positive_selector(alloc, place, own, accounts, namespaces)?;
    Ok(SideSelectors {
        selector,
        not_selector,
    })
}

// ---- service accounts

// Service accounts: those of these names, and those that a selector of theirs takes.
#[derive(Drop)]
struct Accounts {
    names: Seq<Text>,
    chosen: Option<Selector>,
}

fn accounts_at(alloc: Global, path: &Path<'_>, side: &Value) -> Result<Accounts, ReadFault>
    ensures answer { IsAnswerOf (accounts_at (text_of path.now) (view side.now)) result }
    ensures names { IfOk result (λ accounts. AreStrings accounts.names) }
    ensures shallow { IfOk result (λ accounts. IfSome accounts.chosen (λ t. height t ≤ 131)) }
{
    given_accounts(alloc, path, side)
}

#[tactic(auto, unfolding(crate::specs::SideSelectors::accounts_at))]
fn given_accounts(alloc: Global, path: &Path<'_>, side: &Value) -> Result<Accounts, ReadFault>
    ensures { IsAnswerOf (accounts_at (text_of path.now) (view side.now)) result }
{
    let nothing = Value::Null;
    let here = path.member("serviceAccounts");
    let accounts = section(alloc, &here, "serviceAccounts", side, &nothing)?;
    read_accounts(alloc, &here, accounts)
}

#[tactic(auto, unfolding(crate::specs::SideSelectors::accounts_in))]
fn read_accounts(alloc: Global, path: &Path<'_>, accounts: &Value) -> Result<Accounts, ReadFault>
    ensures { IsAnswerOf (accounts_in (text_of path.now) (view accounts.now)) result }
{
    let names = items(alloc, &TextForm::Name, path, "names", accounts)?;
    let chosen = selector_at(alloc, path, "selector", accounts)?;
    Ok(Accounts { names, chosen })
}

// An empty list names none.
fn of_names(alloc: Global, names: &[Text]) -> Result<Option<Selector>, Memory>
    requires { AreStrings names.now }
    ensures tree { IfOk result (λ part. part ≡ of_names names.now) }
    ensures shallow { IfOk result (λ part. IfSome part (λ t. height t ≤ 139)) }
{
    if is_given(names) {
        Ok(Some(of_accounts(alloc, names)?))
    } else {
        Ok(None)
    }
}

// The endpoints of service accounts of these names.
fn of_accounts(alloc: Global, names: &[Text]) -> Result<Selector, Memory>
    requires { AreStrings names.now }
    ensures { IfOk result (λ selector. selector ≡ of_accounts names.now) }
{
    Selector::one_of(alloc, b"projectcalico.org/serviceaccount", names, false)
}

// ---- namespaces

// The namespaces that a side names, or where it asks for something and names none, its policy's own.
fn namespace_part(
    alloc: Global,
    place: &RulePlace,
    asked: bool,
    namespaces: Option<Selector>,
) -> Result<Option<Selector>, Memory>
    requires { IfSome namespaces (λ t. height t ≤ 131) }
    ensures tree { IfOk result (λ part. part ≡ namespace_part place.now asked namespaces) }
    ensures shallow { IfOk result (λ part. IfSome part (λ t. height t ≤ 139)) }
{
    match namespaces {
        Some(part) => Ok(Some(part.rewrite_namespace(alloc)?)),
        None => unnamed_namespace(alloc, place, asked),
    }
}

fn unnamed_namespace(
    alloc: Global,
    place: &RulePlace,
    asked: bool,
) -> Result<Option<Selector>, Memory>
    ensures tree { IfOk result (λ part. part ≡ unnamed_namespace place.now asked) }
    ensures shallow { IfOk result (λ part. IfSome part (λ t. height t ≤ 139)) }
{
    if asked {
        own_namespace(alloc, place)
    } else {
        Ok(None)
    }
}

fn own_namespace(alloc: Global, place: &RulePlace) -> Result<Option<Selector>, Memory>
    ensures tree { IfOk result (λ part. part ≡ own_namespace place.now) }
    ensures shallow { IfOk result (λ part. IfSome part (λ t. height t ≤ 139)) }
{
    match place {
        RulePlace::OfNamespace(namespace) => Ok(Some(of_namespace(alloc, namespace.name())?)),
        RulePlace::OfPolicy | RulePlace::OfProfile => Ok(None),
    }
}

// ---- all together

fn positive_selector(
    alloc: Global,
    place: &RulePlace,
    own: Option<Selector>,
    accounts: Accounts,
    namespaces: Option<Selector>,
) -> Result<Option<Selector>, Memory>
    requires own { IfSome own (λ t. height t ≤ 131) }
    requires names { AreStrings accounts.names }
    requires chosen { IfSome accounts.chosen (λ t. height t ≤ 131) }
    requires namespaces { IfSome namespaces (λ t. height t ≤ 131) }
    ensures { IfOk result (λ selector. selector ≡ positive_selector place.now own accounts namespaces) }
{
    let mut parts = earlier_parts(alloc, own, accounts)?;
    let asked = is_given(parts.as_slice());
    let namespaces = namespace_part(alloc, place, asked, namespaces)?;
    push_given(&mut parts, namespaces)?;
    asked_by(alloc, parts)
}

// What a side asks for apart from namespaces.
fn earlier_parts(
    alloc: Global,
    own: Option<Selector>,
    accounts: Accounts,
) -> Result<Vec<Selector>, Memory>
    requires own { IfSome own (λ t. height t ≤ 131) }
    requires names { AreStrings accounts.names }
    requires chosen { IfSome accounts.chosen (λ t. height t ≤ 131) }
    ensures parts { IfOk result (λ parts. parts.items ≡ earlier_parts own accounts) }
    ensures shallow { IfOk result (λ parts. All (λ t. height t ≤ 139) parts.items) }
{
    let Accounts { names, chosen } = accounts;
    let named = of_names(alloc, names.as_slice())?;
    let chosen = of_service_accounts(alloc, chosen)?;
    let mut parts = Vec::new(alloc);
    push_given(&mut parts, own)?;
    push_given(&mut parts, named)?;
    push_given(&mut parts, chosen)?;
    Ok(parts)
}

// What these parts ask for together; without parts nothing is asked.
fn asked_by(alloc: Global, parts: Vec<Selector>) -> Result<Option<Selector>, Memory>
    requires { All (λ t. height t ≤ 139) parts.items }
    ensures { IfOk result (λ selector. selector ≡ asked_by parts.items) }
{
    if is_given(parts.as_slice()) {
        Ok(Some(Selector::and(alloc, parts)?))
    } else {
        Ok(None)
    }
}
