//! What is read of own rows: what prints so, and nothing else.
ghost use Rattle.std.specs.Prelude.{◌≡◌, ℕ, List, Some, true};
ghost use Rattle.fx_model.specs.declared.chain.ChainRule.{ChainRule};
ghost use Rattle.fx_model.specs.declared.member.Member.{Member};
ghost use Rattle.fx_model.specs.MemberTexts.{member_text};
ghost use Rattle.fx_rows.specs.RowTexts.{rule_text};
ghost use Rattle.fx_found.specs.RuleRows.{rule_of, IsRowRule, IsHeld};
ghost use Rattle.fx_found.specs.MemberRows.{member_of, IsRowMember, AreHeld};
ghost use Rattle.fx_found.specs.declared.row.Row.{Row};
ghost use Rattle.fx_found.specs.OwnRows.{says_own, row_text, IsOwnRow, IsRowHeld};
ghost use Rattle.fx_found.specs.Rows.{row_of};

/// A row is read as an own one exactly where the row prints so. So no two own rows print alike. What numbers a row has is held by
/// their types.
pub fn rows_are_as_printed()
    ensures printed { (text : List ℕ) (r : Row) → row_of text ≡ r → says_own r ≡ true → IsOwnRow r × (row_text r ≡ text) }
    ensures read { (r : Row) → IsOwnRow r → IsRowHeld r → row_of (row_text r) ≡ r }
{}

/// The same of a rule by itself.
pub fn rules_are_as_printed()
    ensures printed { (text : List ℕ) (r : ChainRule) → rule_of text ≡ Some r → IsRowRule r × (rule_text r ≡ text) }
    ensures read { (r : ChainRule) → IsRowRule r → IsHeld r → rule_of (rule_text r) ≡ Some r }
{}

/// The same of a member of a set.
pub fn members_are_as_printed()
    ensures printed { (name text : List ℕ) (m : Member) → member_of name text ≡ Some m → IsRowMember name m × (member_text m ≡ text) }
    ensures read { (name : List ℕ) (m : Member) → IsRowMember name m → AreHeld m → member_of name (member_text m) ≡ Some m }
{}
