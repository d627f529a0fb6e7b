//! Which line stands at an index.
ghost use Rattle.std.specs.Prelude.{◌≡◌, IfOk};
ghost use Rattle.fx_gen.specs.Generator.{drawn_line, line_of};

use crate::draws::drawn;
use crate::lines::{
    endpoint_delete, endpoint_put, policy_delete, policy_put, profile_put, set_put,
};
use fx_base::{Memory, Text};
use std::alloc::Global;

/// The line of this index, without a newline.
///
/// A seed and a node have one sequence of lines. Any index may be asked for, in any order.
pub fn make_line(alloc: Global, seed: u64, index: u64, node: &Text) -> Result<Text, Memory>
    ensures { IfOk result (λ text. text ≡ line_of seed index node.now) }
{
    if index == 0 {
        return Text::new(alloc, b"{\"inSync\":true}");
    }
    if index % 100 == 99 {
        return Text::new(alloc, b"{\"flush\":{}}");
    }
    let line = drawn_line(alloc, drawn(seed, index), node.bytes())?;
    Text::from_vec(line)
}

#[tactic(auto, unfolding(crate::specs::Generator::drawn_line))]
fn drawn_line(alloc: Global, draw: u64, node: &[u8]) -> Result<Vec<u8>, Memory>
    ensures { IfOk result (λ line. line.items ≡ drawn_line draw node.now) }
{
    let place = draw / 16 % 64;
    let role = draw / 1024 % 8;
    match draw % 16 {
        0..=6 => endpoint_put(alloc, place, role, node),
        7 | 8 => endpoint_delete(alloc, place),
        9..=12 => policy_put(alloc, place, role),
        13 => policy_delete(alloc, place),
        14 => set_put(alloc, place, role),
        _ => profile_put(alloc),
    }
}
