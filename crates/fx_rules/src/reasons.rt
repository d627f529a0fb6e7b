//! The reasons that rules give.
ghost use Rattle.std.specs.Prelude.{◌≡◌, IfOk};
ghost use Rattle.fx_rules.specs.Rules.{reason_at};

use fx_base::{Memory, Text};
use fx_model::{PolicyId, Reason};

/// Whose rules are rendered.
#[derive(Clone, Copy)]
pub enum Owner<'a> {
    Policy(&'a PolicyId),
    Profile(&'a Text),
}

impl Owner<'_> {
    pub fn reason(&self, place: u64) -> Result<Reason, Memory>
        ensures { IfOk result (λ why. why ≡ reason_at self.now place) }
    {
        match self {
            Owner::Policy(id) => Ok(Reason::Policy {
                id: (*id).clone()?,
                place,
            }),
            Owner::Profile(name) => Ok(Reason::Profile {
                name: (*name).clone()?,
                place,
            }),
        }
    }
}

/// The same reason.
pub fn copied(why: &Reason) -> Result<Reason, Memory>
    ensures { IfOk result (λ copy. copy ≡ why.now) }
{
    Ok(match why {
        Reason::Policy { id, place } => Reason::Policy {
            id: id.clone()?,
            place: *place,
        },
        Reason::EndOfTier { tier } => Reason::EndOfTier {
            tier: tier.clone()?,
        },
        Reason::Profile { name, place } => Reason::Profile {
            name: name.clone()?,
            place: *place,
        },
        Reason::MissingProfile { name } => Reason::MissingProfile {
            name: name.clone()?,
        },
        Reason::NoProfileRule => Reason::NoProfileRule,
        Reason::UnknownInterface => Reason::UnknownInterface,
        Reason::Established => Reason::Established,
        Reason::Invalid => Reason::Invalid,
    })
}
