ghost use Rattle.std.specs.Prelude.{◌≡◌, ◌<◌, ◌≤◌, ◌+◌, ◌^◌, ◌==◌, length, IfOk, IfSome};
ghost use Rattle.scalar_net.specs.Family.{width};
ghost use Rattle.prefix_table.specs.Longest.{longest};

use crate::growing::{grow, rows_of};
use crate::search::find_from;
use crate::{Nodes, Steps};
use base_types::{ListOf, OutOfMemory};
use scalar_net::{Ip, Network};
use std::alloc::Global;
use std::marker::{Brand, Model};
use std::snapshot::Snapshot;
use std::sync::ledger::{Blank, Ledger};

pub type NetworkList = ListOf<Network>;

/// A table of networks, by which the longest that holds an address is found in at most as many steps as the address has
/// bits, and one. Contracts see its rows in order.
#[derive(Drop)]
pub struct PrefixTable {
    rows: Snapshot<NetworkList>,
    count: usize,
    nodes: Nodes,
    // The roots of both families.
    four: Option<u32>,
    six: Option<u32>,
}

impl Model for PrefixTable {
    ghost use Rattle.std.specs.Prelude.{◌≡◌, ◌<◌, ◌^◌, List, length};
    ghost use Rattle.scalar_net.specs.declared.network.Network.{Network};
    ghost use Rattle.prefix_table.specs.Growing.{AreTries};

    ghost Value = { List Network };

    ghost view = { λ t. t.rows.value };

    ghost invariant = { λ t. (length t.rows.value < 2 ^ 31) × (t.count ≡ length t.rows.value) × AreTries t.rows.value t.nodes t.four t.six };
}

impl PrefixTable {
    /// The table of these rows.
    pub fn build(alloc: Global, rows: &NetworkList) -> Result<PrefixTable, OutOfMemory>
        requires { length rows.now < 2 ^ 31 }
        ensures { IfOk result (λ table. table ≡ rows.now) }
    {
        let networks = rows.as_slice();
        let fours = rows_of(alloc, networks, false)?;
        let sixes = rows_of(alloc, networks, true)?;
        let mut nodes = Nodes::with_room(alloc, 2 * networks.len())?;
        let four = grow(alloc, &mut nodes, networks, false, 0, fours)?;
        let six = grow(alloc, &mut nodes, networks, true, 0, sixes)?;
        Ok(PrefixTable {
            rows: Snapshot::of(rows),
            count: networks.len(),
            nodes,
            four,
            six,
        })
    }

    /// How many rows there are.
    pub fn len(&self) -> usize
        ensures { result ≡ length self.now }
    {
        self.count
    }

    pub fn is_empty(&self) -> bool
        ensures { result ≡ (length self.now == 0) }
    {
        self.count == 0
    }

    /// The row of the longest prefix that holds the address, the first of several as long; None exactly where no row
    /// holds it. It takes no memory.
    pub fn find(&self, ip: &Ip) -> Option<u32>
        ensures longest { result ≡ longest self.now ip.now }
        ensures row { IfSome result (λ i. i < length self.now) }
    {
        find_uncounted::<Brand>(self, ip, Blank::new(1))
    }

    /// The same, with the steps that it takes counted: at most 33 for an IPv4 address, and 129 for an IPv6 address.
    pub fn find_counted<L: Ledger>(&self, ip: &Ip, steps: &mut Steps<L>) -> Option<u32>
        ensures longest { result ≡ longest self.now ip.now }
        ensures row { IfSome result (λ i. i < length self.now) }
        ensures cost { steps.new ≤ steps.old + width ip.now.six + 1 }
    {
        let root = if ip.six { self.six } else { self.four };
        find_from(&self.nodes, root, ip, steps)
    }
}

// The look-up, with a count that nobody sees.
fn find_uncounted<L: Ledger>(table: &PrefixTable, ip: &Ip, blank: Blank) -> Option<u32>
    requires name { blank.name ≡ L.name }
    requires parts { blank.parts ≡ L.parts }
    requires some { 0 < blank.parts }
    ensures longest { result ≡ longest table.now ip.now }
    ensures row { IfSome result (λ i. i < length table.now) }
{
    let mut steps = Steps::<L>::new(blank);
    table.find_counted(ip, &mut steps)
}
