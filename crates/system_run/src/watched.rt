//! Adapters of the outside that say on a terminal what they were asked for.

use crate::progress::Progress;
use base_types::Text;
use edge_traits::{Clock, Disk, Failed, Shelf, ShelfFault, Sink, Source};
use std::alloc::Global;
use std::rt;

/// A part of the outside that is as it was, and says on a terminal how far it is.
#[derive(Drop)]
pub struct Watched<'a, T, R> {
    part: T,
    progress: &'a Progress<'a, R>,
}

impl<'a, T, R> Watched<'a, T, R> {
    pub fn new(part: T, progress: &'a Progress<'a, R>) -> Self {
        Watched { part, progress }
    }
}

/// A source that says how far it was read. It can't be dropped.
pub struct WatchedSource<'a, S, R> {
    source: S,
    name: Text,
    progress: &'a Progress<'a, R>,
}

impl<S: Source, R: rt::Clock + Eprint> Source for WatchedSource<'_, S, R> {
    ghost source = { λ s. S.source s.source };

    fn read_at(&mut self, at: u64, buf: &mut [u8]) -> Result<usize, Failed> {
        self.progress.read_feed(&self.name, at);
        self.source.read_at(at, buf)
    }
}

impl<'a, H: Shelf, R: rt::Clock + Eprint> Shelf for Watched<'a, H, R> {
    type Src = WatchedSource<'a, H::Src, R>;

    ghost shelf = { λ s. H.shelf s.part };

    fn fetch(&mut self, alloc: Global, name: &Text) -> Result<Self::Src, ShelfFault> {
        let Ok(own_name) = name.copy(alloc) else {
            return Err(ShelfFault::OutOfMemory);
        };
        match self.part.fetch(alloc, name) {
            Ok(source) => Ok(WatchedSource {
                source,
                name: own_name,
                progress: self.progress,
            }),
            Err(fault) => Err(fault),
        }
    }

    fn take_back(&mut self, name: &Text, source: Self::Src) {
        let WatchedSource {
            source,
            name: _,
            progress: _,
        } = source;
        self.part.take_back(name, source);
    }
}

impl<C: Clock, R: rt::Clock + Eprint> Clock for Watched<'_, C, R> {
    ghost told = { λ c. C.told c.part };

    // Each step asks once.
    fn now(&self) -> u64 {
        self.progress.make_step();
        self.part.now()
    }
}

impl<S: Sink, R: rt::Clock + Eprint> Sink for Watched<'_, S, R> {
    ghost sink = { λ s. S.sink s.part };

    // Both may be one terminal, so the line goes first.
    fn write(&mut self, bytes: &[u8]) -> Result<usize, Failed> {
        self.progress.clear();
        self.part.write(bytes)
    }
}

impl<D: Disk, R: rt::Clock + Eprint> Disk for Watched<'_, D, R> {
    ghost disk = { λ d. D.disk d.part };

    fn len(&mut self, file: u64) -> Result<u64, Failed> {
        self.part.len(file)
    }

    fn read_at(&mut self, file: u64, at: u64, buf: &mut [u8]) -> Result<usize, Failed> {
        let count = self.part.read_at(file, at, buf)?;
        self.progress.read_store(count as u64);
        Ok(count)
    }

    fn write_at(&mut self, file: u64, at: u64, bytes: &[u8]) -> Result<(), Failed> {
        self.part.write_at(file, at, bytes)
    }

    fn cut(&mut self, file: u64, len: u64) -> Result<(), Failed> {
        self.part.cut(file, len)
    }

    fn sync(&mut self, file: u64) -> Result<(), Failed> {
        self.part.sync(file)
    }

    ghost honest = { λ d files told. D.honest d.part files told };

    ghost counts_now = { λ d t image le now. D.counts_now d.part t image le now };

    ghost only_now = { λ d image left. D.only_now d.part image left };

    ghost earlier = { λ d s t image le left. D.earlier d.part s t image le left };
}
