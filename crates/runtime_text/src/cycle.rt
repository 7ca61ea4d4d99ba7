//! What is reached from a bot.
ghost use Rattle.std.specs.Prelude.{◌≡◌, ◌<◌, ◌↔◌, length, map, IfOk, IsTrue, OnOk};
ghost use Rattle.runtime_text.specs.Wires.{marked, marked_all, state_of, wires_at, AreBelow, AreInside, Leads};

use base_types::{ListOf, OutOfMemory};
use std::alloc::Global;

// The places that were found, and those of them that are still to be looked at.
#[derive(Drop)]
struct Search {
    found: Vec<bool>,
    open: ListOf<usize>,
}

fn mark(search: &mut Search, i: usize) -> Result<(), OutOfMemory>
    requires { i < length search.old.found.items }
    ensures { OnOk result (state_of search.new ≡ marked i (state_of search.old)) }
{
    if search.found[i] {
        return Ok(());
    }
    if search.open.push(i).is_err() {
        return Err(OutOfMemory);
    }
    search.found[i] = true;
    Ok(())
}

fn mark_all(search: &mut Search, wires: &[usize]) -> Result<(), OutOfMemory>
    requires { AreBelow (length search.old.found.items) wires.now }
    ensures { OnOk result (state_of search.new ≡ marked_all wires.now (state_of search.old)) }
{
    'wires: for i in wires {
        mark(search, *i)?;
    }
    Ok(())
}

// Marks all that a place sends to.
fn look_at(search: &mut Search, graph: &[Vec<usize>], i: usize) -> Result<(), OutOfMemory>
    requires place { i < length graph.now }
    requires below { AreBelow (length search.old.found.items) (wires_at (map (λ wires. wires.items) graph.now) i) }
    ensures { OnOk result (state_of search.new ≡ marked_all (wires_at (map (λ wires. wires.items) graph.now) i) (state_of search.old)) }
{
    mark_all(search, &graph[i])
}

/// Whether what is sent from a place comes back to it.
pub fn comes_back(alloc: Global, graph: &[Vec<usize>], start: usize) -> Result<bool, OutOfMemory>
    requires inside { AreInside (map (λ wires. wires.items) graph.now) }
    requires start { start < length graph.now }
    ensures { IfOk result (λ back. IsTrue back ↔ Leads (map (λ wires. wires.items) graph.now) start start) }
{
    let mut search = Search {
        found: vec![in alloc; false; graph.len()]?,
        open: ListOf::new(alloc),
    };
    look_at(&mut search, graph, start)?;
    'search: while let Some(i) = search.open.pop() {
        look_at(&mut search, graph, i)?;
    }
    Ok(search.found[start])
}
