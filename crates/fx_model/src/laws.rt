//! The orders of members and of policies' places are those that the definitions state. Each law is a contract; no function does
//! anything.
ghost use Rattle.std.specs.Prelude.{◌≡◌};
ghost use Rattle.fx_model.specs.declared.member.Member.{Member};
ghost use Rattle.fx_model.specs.declared.tier_order.PolicyPlace.{PolicyPlace};
ghost use Rattle.fx_model.specs.contracts.tier_order.PolicyPlaceOrd.TheImpl as place_cmp;
ghost use Rattle.fx_model.specs.MemberOrder.{members_compared};
ghost use Rattle.fx_model.specs.TierOrder.{places_compared};

use crate::member::Member;

/// Members compare by kind, then by address, and only then by what else they have. It does nothing.
pub fn members_compare_as_stated()
    ensures { (a b : Member) → ⟦<Member as Ord>⟧.cmp a b ≡ members_compared a b }
{}

/// Places compare by their tier's order and name, and in the tier by their own order and text. It does nothing.
pub fn places_compare_as_stated()
    ensures { (a b : PolicyPlace) → place_cmp.cmp-value.it a b ≡ places_compared a b }
{}
