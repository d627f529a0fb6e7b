//! An agent over each run: steps whose answers are known, and updates beside the model.
use crate::bench::{PlainAgent, TextOut, new_agent, packet_in, update_in};
use crate::runs::{SHARED, STORED, Step, WANT_OF_MEMORY};
use crate::ticks::{Tests, drawn_lines, follow, stored_lines};
use fx_agent::{PullFault, Pulled, UpdateFault};
use fx_base::{Counter, Text};
use fx_model::Verdict;
use std::alloc::Global;
use std::test::Fail;

/// What is tried on a new agent.
#[derive(Clone, Copy)]
enum Trial {
    Steps(&'static [Step]),
    /// The stored lines, beside the model.
    Stored(Tests),
    /// So many lines that are drawn from a seed, beside the model.
    Drawn(u64, u64, Tests),
}

// The numbers of tests were computed from the lines outside this repository.
const TRIALS: [Trial; 4] = [
    Trial::Steps(&SHARED),
    Trial::Steps(&WANT_OF_MEMORY),
    Trial::Stored(Tests {
        least: 67,
        ticks: 183,
        most: 250,
    }),
    Trial::Drawn(
        0,
        200,
        Tests {
            least: 106,
            ticks: 106,
            most: 556,
        },
    ),
];

// The next message isn't written at first, and then it is.
fn comes(text: &str, agent: &mut PlainAgent, out: &mut TextOut) -> Result<bool, PullFault> {
    let kept = out.kept;
    out.failing = 1;
    let failed = agent.pull(out) == Err(PullFault::Write);
    let stays = agent.pending() && out.kept == kept;
    let sent = agent.pull(out)? == Pulled::Sent;
    Ok(failed && stays && sent && out.ends_with(text))
}

fn runs_out(agent: &mut PlainAgent, out: &mut TextOut) -> bool {
    out.full = true;
    let pulled = agent.pull(out);
    out.full = false;
    pulled == Err(PullFault::Memory) && !agent.pending()
}

fn is_unready(answer: &Result<(), UpdateFault>) -> bool {
    matches!(answer, Err(UpdateFault::NeedsResync))
}

fn begins_anew(
    alloc: Global,
    line: &str,
    agent: &mut PlainAgent,
    out: &mut TextOut,
) -> Result<bool, Fail> {
    let mut ticks = Counter::new();
    let pulled = agent.pull(out) == Err(PullFault::NeedsResync);
    let updated = is_unready(&agent.update(update_in(alloc, line.as_bytes())?, &mut ticks));
    let batched = is_unready(&agent.update_all(Vec::new(alloc), &mut ticks));
    Ok(pulled && updated && batched)
}

fn is_denied(alloc: Global, line: &str, agent: &PlainAgent) -> Result<bool, Fail> {
    let packet = packet_in(alloc, line.as_bytes())?;
    Ok(agent.decide(&packet).verdict == Verdict::Deny)
}

// Whether all is as the step says.
fn take(
    alloc: Global,
    step: Step,
    ticks: &mut Counter,
    agent: &mut PlainAgent,
    out: &mut TextOut,
) -> Result<bool, Fail> {
    match step {
        Step::Update(line, wanted) => {
            agent.update(update_in(alloc, line.as_bytes())?, ticks)?;
            Ok(ticks.count() == wanted)
        }
        Step::Message(text) => Ok(comes(text, agent, out)?),
        Step::Nothing => Ok(!agent.pending() && agent.pull(out)? == Pulled::Nothing),
        Step::WantOfMemory => Ok(runs_out(agent, out)),
        Step::BeginsAnew(line) => begins_anew(alloc, line, agent, out),
        Step::Denied(line) => is_denied(alloc, line, agent),
    }
}

fn take_all(alloc: Global, steps: &[Step], agent: &mut PlainAgent) -> Result<bool, Fail> {
    let mut ticks = Counter::new();
    let mut out = TextOut::new(alloc);
    for step in steps {
        if !take(alloc, *step, &mut ticks, agent, &mut out)? {
            return Ok(false);
        }
    }
    Ok(true)
}

fn run(alloc: Global, trial: Trial, agent: &mut PlainAgent) -> Result<bool, Fail> {
    match trial {
        Trial::Steps(steps) => take_all(alloc, steps, agent),
        Trial::Stored(wanted) => {
            let lines = stored_lines(alloc, STORED)?;
            follow(alloc, &lines, wanted, agent)
        }
        Trial::Drawn(seed, count, wanted) => {
            let node = Text::new(alloc, b"n1")?;
            let lines = drawn_lines(alloc, seed, count, &node)?;
            follow(alloc, &lines, wanted, agent)
        }
    }
}

// The agent stands here and is lent to the trial, so that one place lets go of it.
fn try_out(alloc: Global, trial: Trial) -> Result<bool, Fail> {
    let mut agent = new_agent(alloc)?;
    let tried = run(alloc, trial, &mut agent);
    drop(agent);
    tried
}

// The first trial, from 0, in which something isn't as it should be.
fn wrong_trial(alloc: Global) -> Result<Option<usize>, Fail> {
    for (number, trial) in TRIALS.into_iter().enumerate() {
        if !try_out(alloc, trial)? {
            return Ok(Some(number));
        }
    }
    Ok(None)
}

#[test]
fn each_trial_comes_out_as_it_should(rt: HostRuntime) -> Result<(), Fail> {
    assert_eq!(rt; wrong_trial(rt.alloc())?, None);
    Ok(())
}
