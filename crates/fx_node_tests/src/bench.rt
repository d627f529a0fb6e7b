//! One bench for all nodes: calls from a table, and after each what the sink has and how often it was told.
ghost use Rattle.std.specs.Prelude.{IfOk, OnOk};

use fx_base::Memory;
use std::alloc::Global;

/// A node, a sink that records what it is told, and what the calls need.
pub trait Bench: Sized {
    /// A call of the node, or some in a row.
    type Step;

    /// What the sink has, and how often it was told where it counts that.
    type Shown;

    /// The sink has what follows from the node's inputs, and the next step may be made.
    ghost Ready: { Self → Type 0 };

    fn new(alloc: Global) -> Result<Self, Memory>
        ensures { IfOk result (λ bench. Ready bench) };

    fn make(&mut self, step: &Self::Step) -> Result<(), Memory>
        requires { Ready self.old }
        ensures { OnOk result (Ready self.new) };

    /// Whether the sink has this.
    fn shows(&self, shown: &Self::Shown) -> Result<bool, Memory>;
}

/// The title of the first row behind whose step the sink has something else. A row is its title, a step or `None` where
/// a new bench takes the place of the one before, and what the sink then has.
pub fn first_wrong<B: Bench + Drop>(
    alloc: Global,
    rows: &[(&'static str, Option<B::Step>, B::Shown)],
) -> Result<Option<&'static str>, Memory> {
    // The bench stands here and is lent to the steps, so that one place lets go of it.
    let mut bench = B::new(alloc)?;
    let wrong = follow(alloc, &mut bench, rows);
    drop(bench);
    wrong
}

fn follow<B: Bench + Drop>(
    alloc: Global,
    bench: &mut B,
    rows: &[(&'static str, Option<B::Step>, B::Shown)],
) -> Result<Option<&'static str>, Memory>
    requires { B.Ready bench.old }
{
    for (title, step, shown) in rows {
        take(alloc, bench, step)?;
        if !bench.shows(shown)? {
            return Ok(Some(*title));
        }
    }
    Ok(None)
}

fn take<B: Bench + Drop>(alloc: Global, bench: &mut B, step: &Option<B::Step>) -> Result<(), Memory>
    requires { B.Ready bench.old }
    ensures { OnOk result (B.Ready bench.new) }
{
    match step {
        Some(step) => bench.make(step),
        None => {
            *bench = B::new(alloc)?;
            Ok(())
        }
    }
}
