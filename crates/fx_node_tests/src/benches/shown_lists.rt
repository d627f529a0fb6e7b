//! An endpoint with its tiers as a text: its interface, the tiers for packets to it, `|`, those for packets from it,
//! and `;`. A tier is its name, `/pass` if it passes at its end, and in brackets the keys of its policies.
use fx_base::{Memory, NameKey, Text};
use fx_model::{ViewEndpoint, ViewTier};

pub fn push_row(iface: &Text, endpoint: &ViewEndpoint, shown: &mut Vec<u8>) -> Result<(), Memory> {
    shown.extend_from_slice(iface.bytes())?;
    shown.push(b' ')?;
    push_tiers(endpoint.ingress.as_slice(), shown)?;
    shown.push(b'|')?;
    push_tiers(endpoint.egress.as_slice(), shown)?;
    shown.push(b';')?;
    Ok(())
}

fn push_tiers(tiers: &[ViewTier], shown: &mut Vec<u8>) -> Result<(), Memory> {
    for tier in tiers {
        shown.extend_from_slice(tier.name.bytes())?;
        shown.extend_from_slice(end_word(tier))?;
        shown.push(b'(')?;
        push_keys(tier.policies.as_slice(), shown)?;
        shown.push(b')')?;
    }
    Ok(())
}

fn end_word(tier: &ViewTier) -> &'static [u8] {
    if tier.pass_at_end { b"/pass" } else { b"" }
}

fn push_keys(keys: &[NameKey], shown: &mut Vec<u8>) -> Result<(), Memory> {
    for (number, key) in keys.iter().enumerate() {
        if number > 0 {
            shown.push(b',')?;
        }
        shown.extend_from_slice(key.bytes())?;
    }
    Ok(())
}
