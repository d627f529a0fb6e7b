//! How many tests of selectors updates make, by the counter that the agent is handed, beside the model.
use crate::bench::{PlainAgent, update_in};
use crate::whole::WholeModel;
use fx_base::{Counter, Memory, Text};
use fx_gen::make_line;
use std::alloc::Global;
use std::test::Fail;

/// How many tests there are, and how many at least and at most by the model.
#[derive(Clone, Copy, PartialEq, Eq)]
pub struct Tests {
    pub least: u64,
    pub ticks: u64,
    pub most: u64,
}

impl Tests {
    fn are_between(&self) -> bool {
        self.least <= self.ticks && self.ticks <= self.most
    }

    fn add(&mut self, more: Tests) {
        self.least = self.least.saturating_add(more.least);
        self.ticks = self.ticks.saturating_add(more.ticks);
        self.most = self.most.saturating_add(more.most);
    }
}

// Gives both the update of a line.
fn make(
    alloc: Global,
    line: &Text,
    agent: &mut PlainAgent,
    model: &mut WholeModel,
) -> Result<Tests, Fail> {
    let mut ticks = Counter::new();
    agent.update(update_in(alloc, line.bytes())?, &mut ticks)?;
    let sums = model.make(update_in(alloc, line.bytes())?)?;
    Ok(Tests {
        least: sums.least,
        ticks: ticks.count(),
        most: sums.most,
    })
}

// Gives both all lines, and answers the totals, if each update made as many tests as the model says.
fn make_all(
    alloc: Global,
    lines: &[Text],
    agent: &mut PlainAgent,
    model: &mut WholeModel,
) -> Result<Option<Tests>, Fail> {
    let mut totals = Tests {
        least: 0,
        ticks: 0,
        most: 0,
    };
    for line in lines {
        let tests = make(alloc, line, agent, model)?;
        if !tests.are_between() {
            return Ok(None);
        }
        totals.add(tests);
    }
    Ok(Some(totals))
}

/// Whether these are the totals over all lines.
pub fn follow(
    alloc: Global,
    lines: &[Text],
    wanted: Tests,
    agent: &mut PlainAgent,
) -> Result<bool, Fail> {
    let mut model = WholeModel::new(alloc)?;
    let made = make_all(alloc, lines, agent, &mut model);
    drop(model);
    Ok(made? == Some(wanted))
}

pub fn stored_lines(alloc: Global, stored: &str) -> Result<Vec<Text>, Memory> {
    let mut lines = Vec::new(alloc);
    for line in stored.trim().lines() {
        lines.push(Text::new(alloc, line.as_bytes())?)?;
    }
    Ok(lines)
}

/// Those of a soak run, without its flushes, which are no updates.
pub fn drawn_lines(alloc: Global, seed: u64, count: u64, node: &Text) -> Result<Vec<Text>, Memory> {
    let mut lines = Vec::new(alloc);
    for index in 0..count {
        let line = make_line(alloc, seed, index, node)?;
        if line.bytes() != b"{\"flush\":{}}".as_slice() {
            lines.push(line)?;
        }
    }
    Ok(lines)
}
