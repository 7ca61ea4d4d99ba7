//! Marks in a row.
ghost use Rattle.std.specs.Prelude.{◌≡◌, ◌≤◌, ◌<◌, ◌+◌, ◌-◌, ◌^◌, ◌++◌, ◌∷◌, [], length, max, option_copied, slice_get, IfOk, OnErr, OnOk};
ghost use Rattle.link_store.specs.Links.{list_of};
ghost use Rattle.dedup_cache.specs.Kept.{LosesFirst, marks_in};

use base_types::OutOfMemory;
use link_store::Links;
use link_store::laws::numbers_differ;
use std::alloc::Global;
use std::marker::Model;
use stored_types::{Coded, Mark, MarkList};

/// Marks in a row, the oldest first: one list of nodes, which is made with the first room. Contracts see the marks, for how many more
/// there is room, and how many came so far.
#[derive(Debug, Drop)]
pub struct Row {
    links: Option<Links<Mark>>,
}

impl Model for Row {
    ghost use Rattle.dedup_cache.specs.Kept.{RowView, IsRow, row_of};

    ghost Value = { RowView };

    ghost view = { λ r. row_of r.links };

    ghost invariant = { λ r. IsRow r.links };
}

impl Row {
    /// No marks, and room for none. It takes no memory.
    pub fn new() -> Row
        ensures { result ≡ record { marks = []; spare = 0; pushed = 0 } }
    {
        Row { links: None }
    }

    /// A row of these marks, which move.
    pub fn from_vec(alloc: Global, marks: Vec<Mark>) -> Result<Row, OutOfMemory>
        ensures row { IfOk result (λ row. row ≡ record { marks = marks.items; spare = 0; pushed = length marks.items }) }
        ensures few { OnOk result (length marks.items < 2 ^ 32) }
    {
        let Ok(count) = u32::try_from(marks.len()) else {
            return Err(OutOfMemory);
        };
        let mut row = Row::new();
        row.reserve(alloc, count)?;
        'marks: for mark in marks {
            row.push(mark);
        }
        Ok(row)
    }

    /// Makes room for so many marks that come. Without memory for all nothing changes.
    pub fn reserve(&mut self, alloc: Global, count: u32) -> Result<(), OutOfMemory>
        ensures ok { OnOk result (self.new ≡ record self.old { spare = max count self.old.spare }) }
        ensures err { OnErr result (self.new ≡ self.old) }
    {
        match &mut self.links {
            Some(links) => links.reserve(count),
            None => {
                let mut links = Links::new(alloc, 1)?;
                links.reserve(count)?;
                self.links = Some(links);
                Ok(())
            }
        }
    }

    pub fn len(&self) -> usize
        ensures { result ≡ length self.now.marks }
    {
        match &self.links {
            Some(links) => links.len(0),
            None => 0,
        }
    }

    /// The oldest mark.
    pub fn oldest(&self) -> Option<&Mark>
        ensures { option_copied result ≡ slice_get self.now.marks 0 }
    {
        match &self.links {
            Some(links) => links.front(0),
            None => None,
        }
    }

    /// The oldest mark leaves, if there is one. It takes no memory.
    pub fn pop(&mut self) -> Option<Mark>
        ensures { LosesFirst self.old.marks self.old self.new result }
    {
        match &mut self.links {
            Some(links) => links.pop_front(0),
            None => None,
        }
    }

    /// A mark comes behind the others. It takes no memory.
    pub fn push(&mut self, mark: Mark)
        requires spare { 1 ≤ self.old.spare }
        requires few { self.old.pushed < 2 ^ 63 }
        ensures { self.new ≡ record { marks = self.old.marks ++ mark ∷ []; spare = self.old.spare - 1; pushed = self.old.pushed + 1 } }
    {
        match &mut self.links {
            Some(links) => {
                let _node = links.push_back(0, mark);
            }
            None => unreachable!(),
        }
    }

    /// A copy of the marks, to be stored.
    pub fn copy(&self, alloc: Global) -> Result<MarkList, OutOfMemory>
        ensures { IfOk result (λ copies. copies ≡ self.now.marks) }
    {
        match &self.links {
            Some(links) => copy_marks(alloc, links),
            None => Ok(MarkList::from(Vec::new(alloc))),
        }
    }
}

// Copies of the marks of the only list.
fn copy_marks(alloc: Global, links: &Links<Mark>) -> Result<MarkList, OutOfMemory>
    requires { 0 < length links.now.lists }
    ensures { IfOk result (λ copies. copies ≡ marks_in (list_of links.now 0)) }
{
    numbers_differ(links);
    let mut copies = Vec::with_capacity(alloc, links.len(0))?;
    let mut next = links.first(0);
    'marks: while let Some(node) = next {
        let mark = links.get(node).unwrap();
        let copy = mark.copy(alloc)?;
        copies.push(copy)?;
        next = links.next(node);
    }
    Ok(MarkList::from(copies))
}
