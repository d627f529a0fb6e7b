//! What the words ask for: a replay of standard input, or a soak run.
ghost use Rattle.std.specs.Prelude.{◌≡◌, IsNone, false};
ghost use Rattle.fx_print.specs.Texts.{usage_line};
ghost use Rattle.felix_replay.specs.Tasks.{IsBegun, defined, nothing};
ghost use Rattle.felix_replay.specs.Top.{IsDefinedBy, RanBy, StoppedBy};

use crate::soaking::soak;
use fx_base::{Memory, Sink, Source, Text};
use fx_names::{DigestFunction, DigestRule, Namer};
use fx_program::{Lines, Program, Task, run_lines};
use fx_replay::Replay;
use fx_run::RunFault;
use fx_words::{Asked, Soak};
use std::alloc::Global;

/// The node's name, the soak run, where one is asked for in the place of standard input, and the replay of the node.
#[derive(Drop)]
pub struct ReplayTask<R: DigestRule, F: DigestFunction<R> + Drop> {
    pub node: Text,
    pub soak: Option<Soak>,
    pub lines: Lines<Replay<R, F>>,
}

impl<R: DigestRule, F: DigestFunction<R> + Drop> Task for ReplayTask<R, F> {
    type Asked = Asked;

    type Given = Namer<R, F>;

    ghost usage = { usage_line };

    ghost IsFor = { λ t a. (t.node ≡ a.node) × ((t.soak ≡ a.soak) × ((t.lines.lines ≡ 0) × ((t.lines.refused ≡ false)
        × IsBegun R.digest_of a.node t.lines.program.agent t.lines.program.tally t.lines.program.ticks))) };

    ghost Did = { λ a. RanBy R.digest_of a.node a.soak };

    ghost Stopped = { λ a. StoppedBy R.digest_of a.node a.soak };

    ghost IsAsDefined = { λ a. IsDefinedBy R.digest_of a.node a.soak };

    ghost Reads = { λ a. IsNone a.soak };

    fn usage_text() -> &'static [u8] {
        Replay::<R, F>::usage_text()
    }

    fn begin(alloc: Global, asked: Asked, namer: Namer<R, F>) -> Result<Self, Memory> {
        let Asked { node, soak } = asked;
        let own_node = node.clone()?;
        let replay = Replay::new(alloc, own_node, namer)?;
        Ok(ReplayTask {
            node,
            soak,
            lines: Lines::new(alloc, replay),
        })
    }

    fn run<S: Source, K: Sink>(
        &mut self,
        alloc: Global,
        source: &mut S,
        sink: &mut K,
    ) -> Result<bool, RunFault> {
        match self.soak {
            None => run_lines(alloc, &mut self.lines, source, sink),
            Some(drawn) => soak(alloc, &self.node, drawn, &mut self.lines.program, sink),
        }
    }

    ghost defined = { defined R.digest_of };

    ghost nothing = { nothing R.digest_of };
}
