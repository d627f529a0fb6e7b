//! A store and a graph that are given the same updates, and the view that the graph's messages make.
ghost use Rattle.std.specs.Prelude.{◌≡◌, true, None, OnOk};
ghost use Rattle.fx_names.specs.Digests.{plain_digest};
ghost use Rattle.fx_model.specs.Claims.{clash};
ghost use Rattle.fx_model.specs.Formed.{is_formed};
ghost use Rattle.fx_store.specs.Changing.{claims_after, claims_before};
ghost use Rattle.fx_graph_tests.specs.Benches.{AreAlike, StaysAlike};

use fx_base::{Counter, Memory, Text};
use fx_graph::Graph;
use fx_lines::{Command, read_command};
use fx_model::{Update, View};
use fx_names::{Namer, PlainRule};
use fx_store::{ClaimChange, Store};
use fx_wanted::{pending_key_of, take_at, view_of};
use std::alloc::Global;

/// The graph under the rule that gives texts with one prefix one digest.
type PlainGraph = Graph<PlainRule, PlainRule>;

/// No more messages than this are left at the end of a list.
const MOST_LEFT: u8 = 100;

/// Whether the messages for the node `n1` make the view of the resources, computed whole, once a list of updates is given and all
/// are marked as sent, one of them behind each update.
// One place lets go of all.
pub fn tells_the_view(alloc: Global, list: &str) -> Result<bool, Memory> {
    let node = Text::new(alloc, b"n1")?;
    let graph_node = node.clone()?;
    let mut store = Store::new(alloc, node);
    let mut graph: PlainGraph = Graph::new(alloc, graph_node, Namer::new(PlainRule));
    let mut told = View::new(alloc);
    let tells = follow(alloc, list, &mut store, &mut graph, &mut told);
    drop(graph);
    drop(store);
    drop(told);
    tells
}

fn follow(
    alloc: Global,
    list: &str,
    store: &mut Store,
    graph: &mut PlainGraph,
    told: &mut View,
) -> Result<bool, Memory>
    requires { AreAlike store.old graph.old.state }
{
    for line in list.trim().lines() {
        step(alloc, line.as_bytes(), store, graph, told)?;
    }
    let wanted = view_of(alloc, store.resources(), graph.namer())?;
    finish(graph, told, &wanted)
}

// Gives both the update of a line, and marks a message as sent.
fn step(
    alloc: Global,
    line: &[u8],
    store: &mut Store,
    graph: &mut PlainGraph,
    told: &mut View,
) -> Result<(), Memory>
    requires { AreAlike store.old graph.old.state }
    ensures { OnOk result (AreAlike store.new graph.new.state) }
{
    give(alloc, line, store, graph)?;
    let wanted = view_of(alloc, store.resources(), graph.namer())?;
    deliver(graph, told, &wanted)?;
    Ok(())
}

// Gives both the update of a line, unless it clashes.
fn give(alloc: Global, line: &[u8], store: &mut Store, graph: &mut PlainGraph) -> Result<(), Memory>
    requires { AreAlike store.old graph.old.state }
    ensures { OnOk result (AreAlike store.new graph.new.state) }
{
    let Ok(command) = read_command(alloc, line) else {
        return Err(Memory);
    };
    let Command::Update(update) = command else {
        return Err(Memory);
    };
    let Ok(change) = store.checked_claims(&update, graph.namer()) else {
        return Ok(());
    };
    take(update, &change, store, graph)
}

fn take(
    update: Update,
    change: &ClaimChange,
    store: &mut Store,
    graph: &mut PlainGraph,
) -> Result<(), Memory>
    requires alike { AreAlike store.old graph.old.state }
    requires formed { is_formed update ≡ true }
    requires free { clash plain_digest store.old.resources update ≡ None }
    requires before { change.now.before.items ≡ claims_before plain_digest store.old.resources update }
    requires after { change.now.after.items ≡ claims_after plain_digest store.old.resources update }
    ensures { OnOk result (AreAlike store.new graph.new.state) }
{
    graph.apply(&update, &mut Counter::new())?;
    store.apply_with::<PlainRule>(update, change)?;
    Ok(())
}

// Marks the next message as sent, if there is one. At its key the view that was told is then as the wanted one.
fn deliver(graph: &mut PlainGraph, told: &mut View, wanted: &View) -> Result<(), Memory>
    ensures { OnOk result (StaysAlike graph.old.state graph.new.state) }
{
    let Some(message) = graph.peek() else {
        return Ok(());
    };
    let key = pending_key_of(&message)?;
    take_at(told, wanted, key)?;
    graph.sent();
    Ok(())
}

// Whether the messages that are left make the wanted view.
fn finish(graph: &mut PlainGraph, told: &mut View, wanted: &View) -> Result<bool, Memory> {
    for _ in 0..MOST_LEFT {
        deliver(graph, told, wanted)?;
    }
    Ok(graph.peek().is_none() && *told == *wanted)
}
