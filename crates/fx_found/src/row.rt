//! One row, by itself.
ghost use Rattle.std.specs.Prelude.{◌≡◌, ◌≤◌, length, IfOk};
ghost use Rattle.fx_found.specs.Rows.{own_create, own_add, own_header, own_rule, uses_own, create_row, add_row, header_row, rule_row, row_of, is_own};

use crate::members::member_of;
use crate::names::{is_chain_name, is_own_chain, is_own_set, is_own_word, is_set_name};
use crate::pieces::next_word;
use crate::rules::rule_of;
use crate::unread::Unread;
use fx_base::{ChainName, Memory, SetName};
use fx_model::{ChainRule, Member};
use fx_rows::{create_text, header_text};
use std::alloc::Global;

/// What a row says. A row is own where its name is: a set's that begins with `cali40`, a chain's that begins with `cali-`.
#[derive(Debug, Drop)]
pub enum Row {
    /// No form of a row, or an own row of another text.
    Bad,
    Filter,
    Commit,
    Create(SetName),
    Add(SetName, Member),
    Header(ChainName),
    Rule(ChainName, ChainRule),
    ForeignSet,
    ForeignHeader,
    /// `uses`: one of its words is an own name other than that of the first chain.
    ForeignRule { uses: bool },
}

/// How far a list of rows has come.
#[derive(Clone, Copy, Debug, PartialEq, Eq)]
pub enum Part {
    Sets,
    Headers,
    Rules,
    End,
}

/// Whether a row is own: its name is.
pub fn is_own(text: &[u8]) -> bool
    ensures { result ≡ is_own text.now }
{
    text.starts_with(b"create cali40")
        || text.starts_with(b"add cali40")
        || text.starts_with(b":cali-")
        || text.starts_with(b"-A cali-")
}

/// What a row says by itself.
#[tactic(auto, unfolding(crate::specs::Rows::row_of))]
pub fn row_of(alloc: Global, text: &[u8]) -> Result<Row, Memory>
    ensures { IfOk result (λ row. row ≡ row_of text.now) }
{
    if text == b"*filter".as_slice() {
        Ok(Row::Filter)
    } else if text == b"COMMIT".as_slice() {
        Ok(Row::Commit)
    } else if text.starts_with(b"create ") {
        create_row(alloc, text)
    } else if text.starts_with(b"add ") {
        add_row(alloc, text)
    } else if text.starts_with(b":") {
        header_row(alloc, text)
    } else if text.starts_with(b"-A ") {
        rule_row(alloc, text)
    } else {
        Ok(Row::Bad)
    }
}

// ---- sets

fn create_row(alloc: Global, text: &[u8]) -> Result<Row, Memory>
    requires { 7 ≤ length text.now }
    ensures { IfOk result (λ row. row ≡ create_row text.now) }
{
    let (name, _) = next_word(&text[7..]);
    if name.is_empty() {
        Ok(Row::Bad)
    } else if is_own_set(name) {
        own_create(alloc, text, name)
    } else {
        Ok(Row::ForeignSet)
    }
}

fn own_create(alloc: Global, text: &[u8], name: &[u8]) -> Result<Row, Memory>
    ensures { IfOk result (λ row. row ≡ own_create text.now name.now) }
{
    if !is_set_name(name) {
        return Ok(Row::Bad);
    }
    let name = SetName::join(b"", name);
    let printed = create_text(alloc, &name)?;
    if printed.bytes() == text {
        Ok(Row::Create(name))
    } else {
        Ok(Row::Bad)
    }
}

fn add_row(alloc: Global, text: &[u8]) -> Result<Row, Memory>
    requires { 4 ≤ length text.now }
    ensures { IfOk result (λ row. row ≡ add_row text.now) }
{
    let (name, member) = next_word(&text[4..]);
    if name.is_empty() {
        Ok(Row::Bad)
    } else if is_own_set(name) {
        own_add(alloc, member, name)
    } else {
        Ok(Row::ForeignSet)
    }
}

fn own_add(alloc: Global, text: &[u8], name: &[u8]) -> Result<Row, Memory>
    ensures { IfOk result (λ row. row ≡ own_add text.now name.now) }
{
    if !is_set_name(name) {
        return Ok(Row::Bad);
    }
    let name = SetName::join(b"", name);
    match member_of(alloc, &name, text) {
        Ok(member) => Ok(Row::Add(name, member)),
        Err(Unread::Form) => Ok(Row::Bad),
        Err(Unread::Memory) => Err(Memory),
    }
}

// ---- chains

fn header_row(alloc: Global, text: &[u8]) -> Result<Row, Memory>
    requires { 1 ≤ length text.now }
    ensures { IfOk result (λ row. row ≡ header_row text.now) }
{
    let (name, _) = next_word(&text[1..]);
    if name.is_empty() {
        Ok(Row::Bad)
    } else if is_own_chain(name) {
        own_header(alloc, text, name)
    } else {
        Ok(Row::ForeignHeader)
    }
}

fn own_header(alloc: Global, text: &[u8], name: &[u8]) -> Result<Row, Memory>
    ensures { IfOk result (λ row. row ≡ own_header text.now name.now) }
{
    if !is_chain_name(name) {
        return Ok(Row::Bad);
    }
    let name = ChainName::join(b"", name);
    let printed = header_text(alloc, &name)?;
    if printed.bytes() == text {
        Ok(Row::Header(name))
    } else {
        Ok(Row::Bad)
    }
}

fn rule_row(alloc: Global, text: &[u8]) -> Result<Row, Memory>
    requires { 3 ≤ length text.now }
    ensures { IfOk result (λ row. row ≡ rule_row text.now) }
{
    let (name, rule) = next_word(&text[3..]);
    if name.is_empty() {
        Ok(Row::Bad)
    } else if is_own_chain(name) {
        own_rule(alloc, rule, name)
    } else {
        Ok(Row::ForeignRule {
            uses: uses_own(text),
        })
    }
}

fn own_rule(alloc: Global, text: &[u8], name: &[u8]) -> Result<Row, Memory>
    ensures { IfOk result (λ row. row ≡ own_rule text.now name.now) }
{
    if !is_chain_name(name) {
        return Ok(Row::Bad);
    }
    let name = ChainName::join(b"", name);
    match rule_of(alloc, text) {
        Ok(rule) => Ok(Row::Rule(name, rule)),
        Err(Unread::Form) => Ok(Row::Bad),
        Err(Unread::Memory) => Err(Memory),
    }
}

// Whether one of the words is an own name other than that of the first chain.
fn uses_own(text: &[u8]) -> bool
    ensures { result ≡ uses_own text.now }
{
    let mut later = text;
    'words: while !later.is_empty() {
        let (word, more) = next_word(later);
        if is_own_word(word) {
            return true;
        }
        later = more;
    }
    false
}
