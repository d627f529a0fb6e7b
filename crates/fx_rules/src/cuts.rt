//! Ranges of ports, cut greedily into lists of at most 15 slots, which is the most that iptables-extensions(8)'s multiport
//! takes.
ghost use Rattle.std.specs.Prelude.{◌≡◌, ◌≤◌, IfOk, OnOk};
ghost use Rattle.fx_model.specs.Rendering.{slots_of, port_lists};

use fx_base::{Memory, PortRange, Seq};
use std::alloc::Global;
use std::mem;

// A true range takes two slots.
fn slots_of(range: PortRange) -> usize
    ensures slots { result ≡ slots_of range }
    ensures small { result ≤ 2 }
{
    if range.low == range.high { 1 } else { 2 }
}

// Lists that are full, and one that still has room.
#[derive(Drop)]
struct Cut {
    full: Seq<Seq<PortRange>>,
    last: Seq<PortRange>,
    room: usize,
    ghost bounded: { room ≤ 15 },
}

impl Cut {
    ghost use Rattle.std.specs.Prelude.{◌∷◌, List};
    ghost use Rattle.fx_rules.specs.Cuts.{pending};

    // A range that doesn't fit begins the next list.
    fn add(&mut self, alloc: Global, range: PortRange) -> Result<(), Memory>
        ensures { OnOk result ((rest : List PortRange) → pending self.new rest ≡ pending self.old (range ∷ rest)) }
    {
        let slots = slots_of(range);
        if self.room < slots {
            let last = mem::replace(&mut self.last, Seq::new(alloc));
            self.full.push(last)?;
            self.room = 15;
        }
        self.last.push(range)?;
        self.room -= slots;
        Ok(())
    }
}

/// The ranges, cut into lists.
#[tactic(auto, using(crate::proofs::CutLemmas::before_first_none))]
pub fn port_lists(alloc: Global, ranges: &Seq<PortRange>) -> Result<Seq<Seq<PortRange>>, Memory>
    ensures { IfOk result (λ lists. lists ≡ port_lists ranges.now) }
{
    if ranges.as_slice().is_empty() {
        return Ok(Seq::new(alloc));
    }
    let mut cut = Cut {
        full: Seq::new(alloc),
        last: Seq::new(alloc),
        room: 15,
    };
    for range in ranges.as_slice() {
        cut.add(alloc, *range)?;
    }
    let mut lists = cut.full;
    lists.push(cut.last)?;
    Ok(lists)
}
