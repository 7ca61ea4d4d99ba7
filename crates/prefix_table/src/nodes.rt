//! The nodes of tries. Who looks at one counts a step.
ghost use Rattle.std.specs.Prelude.{◌≡◌, ◌+◌, ◌<◌, ◌++◌, [], ◌∷◌, length, slice_get, Some, IfOk, OnOk};

use crate::Steps;
use base_types::OutOfMemory;
use scalar_net::Network;
use std::alloc::Global;
use std::marker::Model;
use std::sync::ledger::Ledger;

/// A network, the least row of just that network, and the nodes of longer networks within it, by their next bit.
#[derive(Clone, Copy, Debug)]
pub struct TrieNode {
    pub net: Network,
    pub row: Option<u32>,
    pub zero: Option<u32>,
    pub one: Option<u32>,
}

/// A list of nodes.
#[derive(Debug, Drop)]
pub struct Nodes {
    items: Vec<TrieNode>,
}

impl Model for Nodes {
    ghost use Rattle.std.specs.Prelude.{List};
    ghost use Rattle.prefix_table.specs.declared.nodes.TrieNode.{TrieNode};

    ghost Value = { List TrieNode };

    ghost view = { λ n. n.items.items };
}

impl Nodes {
    /// No nodes, and room for so many.
    pub(crate) fn with_room(alloc: Global, count: usize) -> Result<Nodes, OutOfMemory>
        ensures { IfOk result (λ nodes. nodes ≡ []) }
    {
        Ok(Nodes {
            items: Vec::with_capacity(alloc, count)?,
        })
    }

    /// Puts a node behind the others, and answers its number.
    pub(crate) fn push(&mut self, node: TrieNode) -> Result<u32, OutOfMemory>
        ensures number { IfOk result (λ k. k ≡ length self.old) }
        ensures pushed { OnOk result (self.new ≡ self.old ++ node ∷ []) }
    {
        let Ok(number) = u32::try_from(self.items.len()) else {
            return Err(OutOfMemory);
        };
        self.items.push(node)?;
        Ok(number)
    }

    /// Shows a node, and counts one step.
    pub fn at<L: Ledger>(&self, node: u32, steps: &mut Steps<L>) -> &TrieNode
        requires { node < length self.now }
        ensures node { slice_get self.now node ≡ Some result.now }
        ensures counted { steps.new ≡ steps.old + 1 }
    {
        steps.tick();
        &self.items[node as usize]
    }
}
