//! The look-up.
ghost use Rattle.std.specs.Prelude.{◌≡◌, ◌+◌, ◌≤◌, None};
ghost use Rattle.scalar_net.specs.Family.{width};
ghost use Rattle.prefix_table.specs.Trie.{IsTree, IsOrderly, Tree, child_of, descend};

use crate::bits::bit_at;
use crate::{Nodes, Steps, TrieNode};
use scalar_net::{Ip, holds};
use std::sync::ledger::Ledger;

// The node that leads on to the address.
fn child_of(node: &TrieNode, ip: &Ip) -> Option<u32>
    ensures { result ≡ child_of node.now ip.now }
{
    if bit_at(ip, node.net.len) {
        node.one
    } else {
        node.zero
    }
}

/// The row of the longest network on the way down that holds the address.
pub fn find_from<L: Ledger>(
    nodes: &Nodes,
    root: Option<u32>,
    ip: &Ip,
    steps: &mut Steps<L>,
) -> Option<u32>
    requires { (tree : Tree) × IsTree nodes.now root tree × IsOrderly ip.now.six tree }
    ensures found { (tree : Tree) → IsTree nodes.now root tree → IsOrderly ip.now.six tree → result ≡ descend tree ip.now None }
    ensures cost { steps.new ≤ steps.old + width ip.now.six + 1 }
{
    let mut at = root;
    let mut best: Option<u32> = None;
    'way: while let Some(k) = at {
        let node = nodes.at(k, steps);
        if !holds(&node.net, ip) {
            return best;
        }
        best = node.row.or(best);
        at = child_of(node, ip);
    }
    best
}
