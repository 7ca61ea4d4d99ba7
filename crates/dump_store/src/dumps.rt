ghost use Rattle.std.specs.Prelude.{◌≡◌, ◌+◌, ◌-◌, ◌<◌, ◌≤◌, ◌++◌, [], ◌∷◌, length, find, position, max, ◌==◌, slice_get, Some, None, MatchOption, MatchResult, IfOk, OnOk, OnErr, IsErr};
ghost use Rattle.std.specs.List.{AllByRecursion};
ghost use Rattle.std.specs.Vec.{vec_capacity};
ghost use Rattle.base_types.specs.Lists.{without};
ghost use Rattle.edge_traits.specs.Count.{Rose};
ghost use Rattle.edge_traits.specs.Output.{TookFront};
ghost use Rattle.edge_traits.specs.Sink.{Took};
ghost use Rattle.dump_store.specs.Dumps.{is_dump, AreRising};
ghost use Rattle.dump_store.specs.Export.{export_text};

use crate::export::{ExportFault, write_dumps};
use base_types::OutOfMemory;
use edge_traits::Sink;
use std::alloc::Global;
use std::marker::Model;
use stored_types::{Dump, DumpList, copies};

/// Dumps, in the order of their numbers.
#[derive(Debug, Drop)]
pub struct Dumps {
    dumps: Vec<Dump>,
    spare: usize,
}

impl Model for Dumps {
    ghost use Rattle.std.specs.Prelude.{◌+◌, ◌≤◌, length};
    ghost use Rattle.std.specs.Vec.{vec_capacity};
    ghost use Rattle.dump_store.specs.Dumps.{DumpsView, AreRising};

    ghost Value = { DumpsView };

    ghost view = { λ d. record { dumps = d.dumps.items; spare = d.spare } };

    ghost invariant = { λ d. AreRising d.dumps.items × (length d.dumps.items + d.spare ≤ vec_capacity d.dumps) };
}

// Where the dump of this number is.
fn place_of(dumps: &[Dump], no: u64) -> Option<usize>
    requires { AreRising dumps.now }
    ensures { result ≡ position (is_dump no) dumps.now }
{
    dumps.binary_search_by(|dump| dump.no.cmp(&no)).ok()
}

// Takes the dump of this number out, if there is one.
#[tactic(auto, using(base_types::proofs::Found::find_placed, base_types::proofs::Found::find_missing, base_types::proofs::Found::without_placed, base_types::proofs::Found::without_missing))]
fn take_out(dumps: &mut Vec<Dump>, no: u64) -> Option<Dump>
    requires { AreRising dumps.old.items }
    ensures dump { result ≡ find (is_dump no) dumps.old.items }
    ensures left { dumps.new.items ≡ without (is_dump no) dumps.old.items }
    ensures fewer { length dumps.new.items ≤ length dumps.old.items }
    ensures room { vec_capacity dumps.new ≡ vec_capacity dumps.old }
{
    match place_of(dumps, no) {
        Some(i) => Some(dumps.remove(i)),
        None => None,
    }
}

// The dump of this number.
#[tactic(auto, using(base_types::proofs::Found::find_placed, base_types::proofs::Found::find_missing))]
fn dump_of(dumps: &[Dump], no: u64) -> Option<&Dump>
    requires { AreRising dumps.now }
    ensures { MatchOption result (find (is_dump no) dumps.now ≡ None) (λ dump. find (is_dump no) dumps.now ≡ Some dump.now) }
{
    match place_of(dumps, no) {
        Some(i) => Some(&dumps[i]),
        None => None,
    }
}

impl Dumps {
    /// No dumps, and room for none. It takes no memory.
    pub fn new(alloc: Global) -> Self
        ensures { result ≡ record { dumps = []; spare = 0 } }
    {
        Dumps {
            dumps: Vec::new(alloc),
            spare: 0,
        }
    }

    /// Takes the dumps of a state. There is room for no more.
    pub fn from_list(dumps: DumpList) -> Self
        requires { AreRising dumps }
        ensures { result ≡ record { dumps = dumps; spare = 0 } }
    {
        Dumps {
            dumps: dumps.into_vec(),
            spare: 0,
        }
    }

    /// A copy of the dumps, to be stored.
    pub fn copy(&self, alloc: Global) -> Result<DumpList, OutOfMemory>
        ensures { IfOk result (λ copy. copy ≡ self.now.dumps) }
    {
        Ok(DumpList::from(copies(alloc, &self.dumps)?))
    }

    /// Makes room for so many more. Without memory nothing changes.
    pub fn reserve(&mut self, n: u32) -> Result<(), OutOfMemory>
        ensures ok { OnOk result (self.new ≡ record self.old { spare = max n self.old.spare }) }
        ensures err { OnErr result (self.new ≡ self.old) }
    {
        let spare = self.spare.max(n as usize);
        self.dumps.reserve(spare)?;
        self.spare = spare;
        Ok(())
    }

    /// Adds a dump, behind the others.
    pub fn add(&mut self, dump: Dump)
        requires above { AllByRecursion (λ d. d.no < dump.no) self.old.dumps }
        requires spare { 1 ≤ self.old.spare }
        ensures { self.new ≡ record self.old { dumps = self.old.dumps ++ dump ∷ []; spare = self.old.spare - 1 } }
    {
        self.dumps.push_reserved(dump);
        self.spare -= 1;
    }

    /// Takes the dump of this number out, if there is one.
    pub fn take_out(&mut self, no: u64) -> Option<Dump>
        ensures dump { result ≡ find (is_dump no) self.old.dumps }
        ensures left { self.new ≡ record self.old { dumps = without (is_dump no) self.old.dumps } }
    {
        take_out(&mut self.dumps, no)
    }

    /// The dump of this number.
    pub fn get(&self, no: u64) -> Option<&Dump>
        ensures { MatchOption result (find (is_dump no) self.now.dumps ≡ None) (λ dump. find (is_dump no) self.now.dumps ≡ Some dump.now) }
    {
        dump_of(&self.dumps, no)
    }

    pub fn len(&self) -> usize
        ensures { result ≡ length self.now.dumps }
    {
        self.dumps.len()
    }

    pub fn is_empty(&self) -> bool
        ensures { result ≡ (length self.now.dumps == 0) }
    {
        self.dumps.is_empty()
    }

    /// The k-th dump, from 0.
    pub fn at(&self, k: usize) -> &Dump
        requires { k < length self.now.dumps }
        ensures { slice_get self.now.dumps k ≡ Some result.now }
    {
        &self.dumps[k]
    }

    /// For how many more there is room.
    pub fn spare(&self) -> usize
        ensures { result ≡ self.now.spare }
    {
        self.spare
    }

    /// Writes a line of JSON (RFC 8259) for each dump, without memory. After a failure the sink has got a front of them.
    ///
    /// # Errors
    ///
    /// `Sink` where the sink failed.
    pub fn export<S: Sink>(&self, out: &mut S) -> Result<(), ExportFault>
        ensures ok { OnOk result (Took (S.sink out.old) (S.sink out.new) (export_text self.now.dumps)) }
        ensures err { OnErr result (TookFront (S.sink out.old) (S.sink out.new) (export_text self.now.dumps)) }
        ensures failed { IsErr result → Rose (S.sink out.old).faults (S.sink out.new).faults }
        ensures count { (S.sink out.old).faults ≤ (S.sink out.new).faults }
    {
        write_dumps(out, &self.dumps)?;
        Ok(())
    }
}
