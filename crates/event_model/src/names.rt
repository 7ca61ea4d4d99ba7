ghost use Rattle.std.specs.Prelude.{◌≡◌, ◌≤◌, take, Some, IfOk, OnOk};
ghost use Rattle.std.specs.Option.{option_copied};
ghost use Rattle.event_model.specs.Lenient.{lesser, member_name};
ghost use Rattle.event_model.specs.Noted.{leads, AgreeBelow, NotedBeside};

use base_types::OutOfMemory;
use std::alloc::Global;
use std::marker::Model;

/// The name at hand while a tree is gone through, and the least in byte order of the names that were noted. Contracts
/// see these two. Of the name at hand only what changed since the last one that was noted is compared, and only what
/// changed is copied.
#[derive(Drop)]
pub struct Names {
    name: Vec<u8>,
    least: Option<Vec<u8>>,
    // Both have this many bytes in common.
    shared: usize,
}

impl Model for Names {
    ghost use Rattle.std.specs.Prelude.{List, ℕ, Option};
    ghost use Rattle.std.specs.Coded.{coded_ℕ, coded_list, coded_option, coded×};
    ghost use Rattle.event_model.specs.Noted.{least_of, Agree};

    ghost Value = { List ℕ × Option (List ℕ) };

    ghost coded = { coded× (coded_list coded_ℕ) (coded_option (coded_list coded_ℕ)) };

    ghost view = { λ n. (n.name.items, least_of n.least) };

    ghost invariant = { λ n. Agree n.shared n.name.items (least_of n.least) };
}

// How many bytes two names have in common, of which so many are known.
fn common_front(name: &[u8], other: &[u8], known: usize) -> usize
    requires { AgreeBelow known name.now other.now }
    ensures agree { AgreeBelow result name.now other.now }
    ensures known { known ≤ result }
{
    let mut shared = known;
    'bytes: while shared < name.len() && shared < other.len() && name[shared] == other[shared] {
        shared += 1;
    }
    shared
}

// Whether a name takes the place of another.
fn leads(name: &[u8], other: &[u8], shared: usize) -> bool
    requires { AgreeBelow shared name.now other.now }
    ensures { result ≡ leads name.now other.now }
{
    name[shared..].cmp(&other[shared..]).is_le()
}

// Makes the other name this one.
fn overwrite(other: &mut Vec<u8>, name: &[u8], shared: usize) -> Result<(), OutOfMemory>
    requires { AgreeBelow shared name.now other.old.items }
    ensures { OnOk result (other.new.items ≡ name.now) }
{
    other.truncate(shared);
    other.extend_from_slice(&name[shared..])?;
    Ok(())
}

// Makes the least name this one where it leads, and answers how many bytes both have in common then.
fn note_beside(least: &mut Vec<u8>, name: &[u8], known: usize) -> Result<usize, OutOfMemory>
    requires { AgreeBelow known name.now least.old.items }
    ensures { IfOk result (NotedBeside name.now least.old.items least.new.items) }
{
    let shared = common_front(name, least, known);
    if !leads(name, least, shared) {
        return Ok(shared);
    }
    overwrite(least, name, shared)?;
    Ok(name.len())
}

impl Names {
    ghost use Rattle.std.specs.Prelude.{None, []};

    /// The empty name, and no least one. It takes no memory.
    pub fn new(alloc: Global) -> Self
        ensures { result ≡ ([], None) }
    {
        Names {
            name: Vec::new(alloc),
            least: None,
            shared: 0,
        }
    }

    /// The name at hand.
    pub fn name(&self) -> &[u8]
        ensures { result.now ≡ self.now.0 }
    {
        &self.name
    }

    /// The least of the names that were noted.
    pub fn least(&self) -> Option<&[u8]>
        ensures { option_copied result ≡ self.now.1 }
    {
        match &self.least {
            Some(least) => Some(least.as_slice()),
            None => None,
        }
    }

    /// Makes this the name at hand.
    pub fn start(&mut self, name: &[u8]) -> Result<(), OutOfMemory>
        ensures { OnOk result (self.new ≡ (name.now, self.old.1)) }
    {
        self.leave(0);
        self.name.extend_from_slice(name)?;
        Ok(())
    }

    /// Puts a member's name behind that of its object.
    pub fn enter(&mut self, inner: &str) -> Result<(), OutOfMemory>
        ensures { OnOk result (self.new ≡ (member_name self.old.0 inner.now, self.old.1)) }
    {
        self.name.push(b'.')?;
        self.name.extend_from_slice(inner.as_bytes())?;
        Ok(())
    }

    /// Cuts the name at hand back to this length.
    pub fn leave(&mut self, len: usize)
        ensures { self.new ≡ (take len self.old.0, self.old.1) }
    {
        self.name.truncate(len);
        self.shared = self.shared.min(len);
    }

    /// Notes the name at hand.
    pub fn note(&mut self, alloc: Global) -> Result<(), OutOfMemory>
        ensures { OnOk result (self.new ≡ (self.old.0, Some (lesser self.old.0 self.old.1))) }
    {
        let known = self.shared;
        // Where memory runs out, the least name may be cut short anywhere.
        self.shared = 0;
        match &mut self.least {
            Some(least) => self.shared = note_beside(least, &self.name, known)?,
            None => {
                self.least = Some(self.name.to_vec(alloc)?);
                self.shared = self.name.len();
            }
        }
        Ok(())
    }
}
