use base_types::{Blob, NumberList};
use disk_journal::{Heading, Journal};
use edge_memory::{MemDisk, MemSink};
use std::alloc::Global;
use std::test::Fail;
use step_code::encode_base;
use tests_tables::read_state;

pub fn numbers(alloc: Global, number: u64) -> Result<NumberList, Fail> {
    let mut list = NumberList::new(alloc);
    match list.push(number) {
        Ok(()) => Ok(list),
        Err(_) => Err(Fail::from("memory")),
    }
}

pub fn sink(alloc: Global) -> MemSink {
    MemSink::new(alloc, NumberList::new(alloc))
}

// Makes a gate file with one record.
fn make_file(alloc: Global, disk: &mut MemDisk, file: u64, body: &[u8]) -> Result<(), Fail> {
    if body.len() > 1_000_000 {
        return Err(Fail::from("a long state"));
    }
    let heading = Heading {
        format: 1,
        generation: 0,
    };
    match Journal::create(alloc, disk, file, heading, body) {
        Ok(_) => Ok(()),
        Err(_) => Err(Fail::from("the disk")),
    }
}

/// A disk with a store whose generation begins with this state, and has no steps.
pub fn store_of(alloc: Global, state: &str) -> Result<MemDisk, Fail> {
    let code = encode_base(alloc, &read_state(alloc, state)?)?;
    let mut disk = MemDisk::new(alloc);
    make_file(alloc, &mut disk, 17, code.bytes())?;
    make_file(alloc, &mut disk, 0, &0u64.to_be_bytes())?;
    Ok(disk)
}

pub fn tiny(alloc: Global) -> Result<Blob, Fail> {
    Ok(Blob::new(alloc, b"tiny")?)
}
