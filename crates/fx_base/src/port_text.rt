//! Reading ports.
ghost use Rattle.std.specs.Prelude.{◌≡◌, ◌<◌, ◌^◌, IfOk, IfErr, OnErr, length};
ghost use Rattle.fx_base.specs.Forms.{Means, Leaves, Reads};
ghost use Rattle.fx_base.specs.TextValues.{ports_of};
ghost use Rattle.fx_base.specs.PortTexts.{IsPortRange};

use crate::memory::BadText;
use crate::net::PortRange;
use crate::number::{number, optional};

impl PortRange {
    /// Reads `80` as the one port, and `1000:2000` as the ports from the first to the second.
    pub fn read(text: &[u8]) -> Result<PortRange, BadText>
        requires { length text.now < 2 ^ 32 }
        ensures ok { IfOk result (λ ports. Means IsPortRange text.now (ports.low, ports.high)) }
        ensures bad { IfErr result (λ bad. Leaves IsPortRange text.now bad.at) }
        ensures value { IfOk result (λ ports. ports_of text.now ≡ Some (ports.low, ports.high)) }
        ensures none { OnErr result (ports_of text.now ≡ None) }
    {
        match ends(text) {
            Ok((low, high)) => Ok(PortRange {
                low: low as u16,
                high: high as u16,
            }),
            Err(at) => Err(BadText { at: at as u32 }),
        }
    }
}

/// The ends of a range of ports.
fn ends(text: &[u8]) -> Result<(u32, u32), usize>
    requires { length text.now < 2 ^ 32 }
    ensures { Reads IsPortRange text.now result }
{
    let (low, at) = match number(text, 0, 65535) {
        Ok(found) => found,
        Err(at) => return Err(at),
    };
    match optional(&text[at..], low, b':', low, 65535) {
        Ok(high) => Ok((low, high)),
        Err(further) => Err(at + further),
    }
}
