//! The tables, and the operations on them.
ghost use Rattle.std.specs.Prelude.{◌≡◌, ◌<◌, length, IfOk, OnOk, OnErr, IsSome, true, false};
ghost use Rattle.std.specs.List.{insert, remove};
ghost use Rattle.std.specs.Option.{option_copied};
ghost use Rattle.std.specs.FinMap as map;
ghost use Rattle.fx_base.specs.Set as set;
ghost use Rattle.fx_base.specs.Ticks.{ticked};
ghost use Rattle.fx_model.specs.Machine.{rules_in};
ghost use Rattle.fx_model.specs.Messages.{members_of};
ghost use Rattle.fx_model.specs.Ranks.{AllLeadBelow, IsRanked, rank_of};
ghost use Rattle.fx_model.specs.Closed.{AllLeadThere, AllNameThere, AreClosedTables};
ghost use Rattle.fx_model.specs.Shapes.{have_shape, is_member_of, AreShaped, AreOfKinds};
ghost use Rattle.fx_tables.specs.Leads.{NoneLeadsTo};
ghost use Rattle.fx_tables.specs.Names.{NoneNames};

use crate::places::{insert_at, remove_at};
use fx_base::{ChainMap, ChainName, Memory, Seq, SetMap, SetName, Ticker};
use fx_model::{ChainRule, Member, MemberSet};
use std::alloc::Global;
use std::marker::Model;

/// IP sets and chains. Every chain that a rule leads to and every set that it names is there, each chain leads to chains of
/// lower ranks, rules have the shapes of rules, and sets have members of their kinds.
#[derive(Drop)]
pub struct Tables {
    alloc: Global,
    sets: SetMap<MemberSet>,
    chains: ChainMap<Seq<ChainRule>>,
}

impl Model for Tables {
    ghost use Rattle.fx_model.specs.Tables as value;
    ghost use Rattle.fx_tables.specs.Coding.{tables_code};
    ghost use Rattle.fx_tables.specs.Invariant.{AreKept};
    ghost use Rattle.fx_model.specs.contracts.chain.ChainRule as rule;
    ghost use Rattle.fx_model.specs.contracts.member.MemberSet as members;

    ghost Value = { value.Tables };

    ghost coded = { tables_code members.the_row.coded rule.the_row.coded };

    ghost view = { λ t. record { sets = t.sets; chains = t.chains } };

    ghost invariant = { λ t. AreKept (record { sets = t.sets; chains = t.chains }) };
}

impl Tables {
    /// No sets and no chains.
    pub fn new(alloc: Global) -> Tables
        ensures { result ≡ record { sets = map.empty; chains = map.empty } }
    {
        Tables {
            alloc,
            sets: SetMap::new(alloc),
            chains: ChainMap::new(alloc),
        }
    }

    /// Copies of these sets, and no chains.
    pub fn with_sets(alloc: Global, sets: &SetMap<MemberSet>) -> Result<Tables, Memory>
        requires { AreOfKinds sets.now }
        ensures { IfOk result (λ t. t ≡ record { sets = sets.now; chains = map.empty }) }
    {
        let copies = sets.clone()?;
        let tables = Tables {
            alloc,
            sets: copies,
            chains: ChainMap::new(alloc),
        };
        Ok(tables)
    }

    /// Creates a set without members; its name tells its kind. Counts as one operation, also if memory runs out.
    pub fn create_set<O: Ticker>(&mut self, name: SetName, operations: &mut O) -> Result<(), Memory>
        requires { map.contains_key self.old.sets name ≡ false }
        ensures ok { OnOk result (self.new ≡ record self.old { sets = map.insert self.old.sets name set.empty }) }
        ensures err { OnErr result (self.new ≡ self.old) }
        ensures counted { O.number operations.new ≡ ticked 1 (O.number operations.old) }
    {
        operations.tick();
        self.sets.insert(&name, MemberSet::new(self.alloc))?;
        Ok(())
    }

    /// Adds a member to a set. Counts as one operation, also if memory runs out.
    pub fn add_member<O: Ticker>(
        &mut self,
        name: SetName,
        member: Member,
        operations: &mut O,
    ) -> Result<(), Memory>
        requires there { map.contains_key self.old.sets name ≡ true }
        requires absent { set.contains (members_of (map.get self.old.sets name)) member ≡ false }
        requires fits { is_member_of name member ≡ true }
        ensures ok { OnOk result (self.new ≡ record self.old {
          sets = map.insert self.old.sets name
              (set.insert (members_of (map.get self.old.sets name)) member);
        }) }
        ensures err { OnErr result (self.new ≡ self.old) }
        ensures counted { O.number operations.new ≡ ticked 1 (O.number operations.old) }
    {
        operations.tick();
        insert_into(self.alloc, &mut self.sets, name, member)?;
        Ok(())
    }

    /// Removes a member from a set. Counts as one operation.
    pub fn remove_member<O: Ticker>(&mut self, name: SetName, member: Member, operations: &mut O)
        requires there { map.contains_key self.old.sets name ≡ true }
        requires within { set.contains (members_of (map.get self.old.sets name)) member ≡ true }
        ensures gone { self.new ≡ record self.old {
          sets = map.insert self.old.sets name
              (set.remove (members_of (map.get self.old.sets name)) member);
        } }
        ensures counted { O.number operations.new ≡ ticked 1 (O.number operations.old) }
    {
        operations.tick();
        remove_from(self.alloc, &mut self.sets, name, member);
    }

    /// Destroys a set. Counts as one operation.
    pub fn destroy_set<O: Ticker>(&mut self, name: SetName, operations: &mut O)
        requires { NoneNames self.old.chains name }
        ensures gone { self.new ≡ record self.old { sets = map.remove self.old.sets name } }
        ensures counted { O.number operations.new ≡ ticked 1 (O.number operations.old) }
    {
        operations.tick();
        self.sets.remove(&name);
    }

    /// Writes a chain, in place of the one that is there. Counts as one operation, also if memory runs out.
    pub fn write_chain<O: Ticker>(
        &mut self,
        name: ChainName,
        rules: Seq<ChainRule>,
        operations: &mut O,
    ) -> Result<(), Memory>
        requires there { AllLeadThere self.old.chains rules }
        requires below { AllLeadBelow (rank_of name) rules }
        requires named { AllNameThere self.old.sets rules }
        requires shaped { have_shape rules ≡ true }
        ensures ok { OnOk result (self.new ≡ record self.old { chains = map.insert self.old.chains name rules }) }
        ensures err { OnErr result (self.new ≡ self.old) }
        ensures counted { O.number operations.new ≡ ticked 1 (O.number operations.old) }
    {
        operations.tick();
        self.chains.insert(&name, rules)?;
        Ok(())
    }

    /// Puts a rule into a chain, in front of the one at this place: the chain is written with one rule more. Counts as one
    /// operation, also if memory runs out.
    pub fn insert_rule<O: Ticker>(
        &mut self,
        name: ChainName,
        place: usize,
        rule: ChainRule,
        operations: &mut O,
    ) -> Result<(), Memory>
        requires within { place < length (rules_in self.old.chains name) }
        requires there { AllLeadThere self.old.chains (insert (rules_in self.old.chains name) place rule) }
        requires below { AllLeadBelow (rank_of name) (insert (rules_in self.old.chains name) place rule) }
        requires named { AllNameThere self.old.sets (insert (rules_in self.old.chains name) place rule) }
        requires shaped { have_shape (insert (rules_in self.old.chains name) place rule) ≡ true }
        ensures ok { OnOk result (self.new ≡ record self.old {
          chains = map.insert self.old.chains name (insert (rules_in self.old.chains name) place rule);
        }) }
        ensures err { OnErr result (self.new ≡ self.old) }
        ensures counted { O.number operations.new ≡ ticked 1 (O.number operations.old) }
    {
        operations.tick();
        insert_into_chain(self.alloc, &mut self.chains, name, place, rule)?;
        Ok(())
    }

    /// Takes the rule at a place out of a chain: the chain is written with one rule less. Counts as one operation.
    pub fn remove_rule<O: Ticker>(&mut self, name: ChainName, place: usize, operations: &mut O)
        requires within { place < length (rules_in self.old.chains name) }
        requires there { AllLeadThere self.old.chains (remove (rules_in self.old.chains name) place) }
        requires below { AllLeadBelow (rank_of name) (remove (rules_in self.old.chains name) place) }
        requires named { AllNameThere self.old.sets (remove (rules_in self.old.chains name) place) }
        requires shaped { have_shape (remove (rules_in self.old.chains name) place) ≡ true }
        ensures gone { self.new ≡ record self.old {
          chains = map.insert self.old.chains name (remove (rules_in self.old.chains name) place);
        } }
        ensures counted { O.number operations.new ≡ ticked 1 (O.number operations.old) }
    {
        operations.tick();
        remove_from_chain(self.alloc, &mut self.chains, name, place);
    }

    /// Deletes a chain. Counts as one operation.
    pub fn delete_chain<O: Ticker>(&mut self, name: ChainName, operations: &mut O)
        requires { NoneLeadsTo self.old.chains name }
        ensures gone { self.new ≡ record self.old { chains = map.remove self.old.chains name } }
        ensures counted { O.number operations.new ≡ ticked 1 (O.number operations.old) }
    {
        operations.tick();
        self.chains.remove(&name);
    }

    /// The rules of a chain.
    pub fn chain(&self, name: ChainName) -> Option<&Seq<ChainRule>>
        ensures found { option_copied result ≡ map.get self.now.chains name }
        ensures ranked { IsRanked self.now.chains }
        ensures closed { AreClosedTables self.now }
        ensures shaped { AreShaped self.now.chains }
    {
        self.chains.get(&name)
    }

    /// The members of a set.
    pub fn set(&self, name: SetName) -> Option<&MemberSet>
        ensures found { option_copied result ≡ map.get self.now.sets name }
        ensures kinds { AreOfKinds self.now.sets }
    {
        self.sets.get(&name)
    }

    /// All chains, by their names.
    pub fn chains(&self) -> &ChainMap<Seq<ChainRule>>
        ensures all { result.now ≡ self.now.chains }
        ensures ranked { IsRanked self.now.chains }
        ensures closed { AreClosedTables self.now }
        ensures shaped { AreShaped self.now.chains }
    {
        &self.chains
    }

    /// All sets, by their names.
    pub fn sets(&self) -> &SetMap<MemberSet>
        ensures all { result.now ≡ self.now.sets }
        ensures kinds { AreOfKinds self.now.sets }
    {
        &self.sets
    }
}

// Adds a member to the set of this name, which is there.
#[tactic(auto, using(crate::proofs::Exchanged::exchanged))]
fn insert_into(
    alloc: Global,
    sets: &mut SetMap<MemberSet>,
    name: SetName,
    member: Member,
) -> Result<(), Memory>
    requires { map.contains_key sets.old name ≡ true }
    ensures ok { OnOk result (sets.new ≡ map.insert sets.old name
        (set.insert (members_of (map.get sets.old name)) member)) }
    ensures err { OnErr result (sets.new ≡ sets.old) }
{
    let mut members = MemberSet::new(alloc);
    sets.swap(&name, &mut members);
    let added = members.insert(member);
    sets.swap(&name, &mut members);
    added?;
    Ok(())
}

// Removes a member from the set of this name, which is there.
#[tactic(auto, using(crate::proofs::Exchanged::exchanged))]
fn remove_from(alloc: Global, sets: &mut SetMap<MemberSet>, name: SetName, member: Member)
    requires { map.contains_key sets.old name ≡ true }
    ensures { sets.new ≡ map.insert sets.old name (set.remove (members_of (map.get sets.old name)) member) }
{
    let mut members = MemberSet::new(alloc);
    sets.swap(&name, &mut members);
    members.remove(member);
    sets.swap(&name, &mut members);
}

// Puts a rule into the chain of this name, which has a rule at the place.
#[tactic(auto, using(crate::proofs::Swapped::swapped))]
fn insert_into_chain(
    alloc: Global,
    chains: &mut ChainMap<Seq<ChainRule>>,
    name: ChainName,
    place: usize,
    rule: ChainRule,
) -> Result<(), Memory>
    requires { place < length (rules_in chains.old name) }
    ensures ok { OnOk result (chains.new ≡ map.insert chains.old name (insert (rules_in chains.old name) place rule)) }
    ensures err { OnErr result (chains.new ≡ chains.old) }
{
    let mut rules = Seq::new(alloc);
    chains.swap(&name, &mut rules);
    let added = insert_at(alloc, &mut rules, place, rule);
    chains.swap(&name, &mut rules);
    added?;
    Ok(())
}

// Takes the rule at a place out of the chain of this name, which has one there.
#[tactic(auto, using(crate::proofs::Swapped::swapped))]
fn remove_from_chain(
    alloc: Global,
    chains: &mut ChainMap<Seq<ChainRule>>,
    name: ChainName,
    place: usize,
)
    requires { place < length (rules_in chains.old name) }
    ensures { chains.new ≡ map.insert chains.old name (remove (rules_in chains.old name) place) }
{
    let mut rules = Seq::new(alloc);
    chains.swap(&name, &mut rules);
    remove_at(alloc, &mut rules, place);
    chains.swap(&name, &mut rules);
}
