//! Whether chains are equal but for tags.
ghost use Rattle.std.specs.Prelude.{◌≡◌};
ghost use Rattle.std.specs.Option.{option_copied};
ghost use Rattle.fx_reconcile.specs.Alike.{is_alike_rule, are_alike, is_alike};

use fx_base::Seq;
use fx_model::ChainRule;

/// Whether both chains are there and alike.
pub fn is_alike(now: Option<&Seq<ChainRule>>, goal: Option<&Seq<ChainRule>>) -> bool
    ensures { result ≡ is_alike (option_copied now.entry) (option_copied goal.entry) }
{
    match now {
        None => false,
        Some(rules) => match goal {
            None => false,
            Some(others) => are_alike(rules.as_slice(), others.as_slice()),
        },
    }
}

fn are_alike(rules: &[ChainRule], others: &[ChainRule]) -> bool
    ensures { result ≡ are_alike rules.now others.now }
{
    if rules.len() != others.len() {
        return false;
    }
    for (rule, other) in rules.iter().zip(others.iter()) {
        if !is_alike_rule(rule, other) {
            return false;
        }
    }
    true
}

fn is_alike_rule(rule: &ChainRule, other: &ChainRule) -> bool
    ensures { result ≡ is_alike_rule rule.now other.now }
{
    rule.matches == other.matches && rule.target == other.target
}
