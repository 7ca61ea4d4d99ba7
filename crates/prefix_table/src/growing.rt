//! How a trie is made: networks that begin alike stand below the bits that they share.
ghost use Rattle.std.specs.Prelude.{◌≡◌, ◌≤◌, ◌<◌, ◌^◌, ◌↔◌, ℕ, Bool, Contains, length, IfOk};
ghost use Rattle.scalar_net.specs.Network.{IsNetworkOf};
ghost use Rattle.prefix_table.specs.Growing.{ArePartsOf, AreRows, IsGrown, IsRow, Leads, begins, lesser};

use crate::bits::{bit_at, cut, front};
use crate::{Nodes, TrieNode};
use base_types::OutOfMemory;
use scalar_net::{Ip, Network};
use std::alloc::Global;

/// The least row of just the network of a node, and the rows that are longer, by their next bit.
#[derive(Drop)]
struct Parts {
    row: Option<u32>,
    zeros: Vec<u32>,
    ones: Vec<u32>,
}

// How many first bits two networks share, at most so many, and at most as many as the second has.
fn shared_bits(a: &Network, b: &Network, most: u8) -> u8
    requires family { b.now.ip.six ≡ a.now.ip.six }
    requires most { most ≤ a.now.len }
    ensures most { result ≤ most }
    ensures leads { Leads a.now.ip.six result (begins result a.now) b.now }
    ensures known { (len : ℕ) → len ≤ most → Leads a.now.ip.six len (begins len a.now) b.now → len ≤ result }
{
    let mut len = most.min(b.len);
    'bits: while len > 0 && front(&a.ip, len) != front(&b.ip, len) {
        len -= 1;
    }
    len
}

// How many first bits these rows share with the first one, at most as many as the shortest has.
fn common_bits(rows: &[Network], first: &Network, places: &[u32]) -> u8
    requires { AreRows rows.now first.now.ip.six 0 0 places.now }
    ensures most { result ≤ first.now.len }
    ensures rows { AreRows rows.now first.now.ip.six result (begins result first.now) places.now }
    ensures known { (len : ℕ) → len ≤ first.now.len → AreRows rows.now first.now.ip.six len (begins len first.now) places.now → len ≤ result }
{
    let mut len = first.len;
    'places: for place in places {
        len = shared_bits(first, &rows[*place as usize], len);
    }
    len
}

fn lesser(least: Option<u32>, place: u32) -> u32
    ensures { result ≡ lesser least place }
{
    match least {
        Some(least) => least.min(place),
        None => place,
    }
}

// Parts rows by what they have behind so many bits.
fn parted(alloc: Global, rows: &[Network], len: u8, places: &[u32]) -> Result<Parts, OutOfMemory>
    requires { (six : Bool) × (lead : ℕ) × AreRows rows.now six len lead places.now }
    ensures { IfOk result (λ parts. ArePartsOf rows.now len places.now parts.row parts.zeros.items parts.ones.items) }
{
    let mut least: Option<u32> = None;
    let mut zeros = Vec::new(alloc);
    let mut ones = Vec::new(alloc);
    'places: for place in places {
        let row = &rows[*place as usize];
        if row.len == len {
            least = Some(lesser(least, *place));
        } else if bit_at(&row.ip, len) {
            ones.push(*place)?;
        } else {
            zeros.push(*place)?;
        }
    }
    Ok(Parts {
        row: least,
        zeros,
        ones,
    })
}

// The network of the first so many bits of one.
fn shortened(net: &Network, len: u8) -> Network
    requires { len ≤ net.now.len }
    ensures { IsNetworkOf net.now.ip len result }
{
    Network {
        ip: Ip {
            six: net.ip.six,
            bits: cut(&net.ip, len),
        },
        len,
    }
}

/// Puts nodes behind the others, so that there is a trie of these rows, and answers its root. All of the rows begin with the
/// same `len` bits.
pub fn grow(
    alloc: Global,
    nodes: &mut Nodes,
    rows: &[Network],
    six: bool,
    len: u8,
    places: Vec<u32>,
) -> Result<Option<u32>, OutOfMemory>
    requires { (lead : ℕ) × AreRows rows.now six len lead places.items }
    ensures { IfOk result (IsGrown rows.now six len places.items nodes.old nodes.new) }
{
    let Some(place) = places.first() else {
        return Ok(None);
    };
    let first = rows[*place as usize];
    let len = common_bits(rows, &first, &places);
    let Parts { row, zeros, ones } = parted(alloc, rows, len, &places)?;
    let net = shortened(&first, len);
    let zero = grow(alloc, nodes, rows, six, len + 1, zeros)?;
    let one = grow(alloc, nodes, rows, six, len + 1, ones)?;
    let at = nodes.push(TrieNode {
        net,
        row,
        zero,
        one,
    })?;
    Ok(Some(at))
}

/// The rows of a family.
pub fn rows_of(alloc: Global, rows: &[Network], six: bool) -> Result<Vec<u32>, OutOfMemory>
    requires { length rows.now < 2 ^ 31 }
    ensures { IfOk result (λ places. (i : ℕ) → Contains places.items i ↔ IsRow rows.now six 0 0 i) }
{
    let mut places = Vec::new(alloc);
    'rows: for (i, row) in rows.iter().enumerate() {
        if row.ip.six == six {
            places.push(i as u32)?;
        }
    }
    Ok(places)
}
