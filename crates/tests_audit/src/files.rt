//! The files of a store, put together byte by byte.

use base_types::Blob;
use edge_memory::MemDisk;
use edge_traits::Disk;
use std::alloc::Global;
use std::test::Fail;
use step_code::Base;

const ROOT: u64 = 0;

const OUT: u64 = 16;

const FIRST: u64 = 17;

/// The root, without the gate behind its last record; the file of the one output; and those of generations, the first one first, each
/// but the last with that gate.
#[derive(Drop)]
pub struct Files {
    pub root: Vec<u8>,
    pub out: Vec<u8>,
    pub generations: Vec<Vec<u8>>,
}

// A file of so many bytes may be written to a disk.
const LONGEST: usize = 1_000_000;

// The number of the generation whose file this is.
fn place_of(file: u64) -> usize {
    (file.saturating_sub(FIRST) / 2) as usize
}

fn put_file(disk: &mut MemDisk, file: u64, bytes: &[u8]) -> Result<(), Fail> {
    if bytes.len() > LONGEST {
        return Err(Fail::from("a file that is too long for a test"));
    }
    disk.write_at(file, 0, bytes)?;
    Ok(())
}

fn header(alloc: Global, generation: u64) -> Result<Vec<u8>, Fail> {
    let mut file = Vec::new(alloc);
    file.extend_from_slice(b"IMQJ")?;
    file.extend_from_slice(&1u32.to_be_bytes())?;
    file.extend_from_slice(&generation.to_be_bytes())?;
    Ok(file)
}

// A record behind an open gate.
fn put_record(file: &mut Vec<u8>, body: &[u8]) -> Result<(), Fail> {
    file.push(1)?;
    file.extend_from_slice(&(body.len() as u64).to_be_bytes())?;
    file.extend_from_slice(body)?;
    Ok(())
}

impl Files {
    pub fn new(alloc: Global) -> Result<Files, Fail> {
        Ok(Files {
            root: header(alloc, 0)?,
            out: Vec::new(alloc),
            generations: Vec::new(alloc),
        })
    }

    /// Begins the file of the next generation.
    pub fn begin(&mut self, alloc: Global, state: &Blob) -> Result<(), Fail> {
        let number = self.generations.len() as u64;
        put_record(&mut self.root, &number.to_be_bytes())?;
        let file = header(alloc, number)?;
        self.generations.push(file)?;
        self.put(state)
    }

    /// Puts a record behind the others of the last generation.
    pub fn put(&mut self, body: &Blob) -> Result<(), Fail> {
        match self.generations.last_mut() {
            Some(file) => put_record(file, body.bytes()),
            None => Err(Fail::from("a record before any generation")),
        }
    }

    /// Closes the file of the last generation.
    pub fn close(&mut self) -> Result<(), Fail> {
        if let Some(file) = self.generations.last_mut() {
            file.push(0)?;
        }
        Ok(())
    }

    /// Puts the lines that a state has behind those of the output's file.
    pub fn put_lines(&mut self, state: &Base) -> Result<(), Fail> {
        'outs: for out in state.outs.as_slice() {
            'lines: for line in out.lines.as_slice() {
                self.out.extend_from_slice(line.bytes())?;
                self.out.push(b'\n')?;
            }
        }
        Ok(())
    }

    /// The bytes of a file.
    pub fn bytes(&mut self, file: u64) -> Result<&mut Vec<u8>, Fail> {
        if file == ROOT {
            return Ok(&mut self.root);
        }
        if file == OUT {
            return Ok(&mut self.out);
        }
        match self.generations.get_mut(place_of(file)) {
            Some(bytes) => Ok(bytes),
            None => Err(Fail::from("no file of this number")),
        }
    }

    /// A disk that has these files.
    pub fn disk(&self, alloc: Global) -> Result<MemDisk, Fail> {
        let mut disk = MemDisk::new(alloc);
        let mut root = self.root.to_vec(alloc)?;
        root.push(0)?;
        put_file(&mut disk, ROOT, &root)?;
        put_file(&mut disk, OUT, &self.out)?;
        let mut number = FIRST;
        'files: for file in &self.generations {
            put_file(&mut disk, number, file)?;
            number = number.saturating_add(2);
        }
        Ok(disk)
    }
}
