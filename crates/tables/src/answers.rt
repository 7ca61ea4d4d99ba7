//! What the libraries answer.
use crate::progress::is_heading;
use event_json::Cleaner;
use std::alloc::Global;
use std::io;
use table_pipelines::Outside;

/// The libraries of all tables, with what they keep from case to case.
#[derive(Drop)]
pub struct Answers {
    // One for all lines of events, as for those of a feed.
    cleaner: Cleaner,
    outside: Outside,
}

impl Answers {
    pub fn new(alloc: Global) -> Answers {
        Answers {
            cleaner: Cleaner::new(alloc),
            outside: Outside::new(alloc),
        }
    }

    /// The lines of the answer to a case of a table. A heading has none.
    pub fn answer(&mut self, rt: &HostRuntime, table: &str, case: &str) -> io::Result<String> {
        let alloc = rt.alloc();
        if is_heading(case) {
            return Ok(String::new(alloc));
        }
        let answer = match table {
            "texts" => table_texts::answer(alloc, &mut self.cleaner, case)?,
            "codes" => table_codes::answer(alloc, case)?,
            "holds" => table_holds::answer(alloc, case)?,
            "sieves" => table_sieves::answer(alloc, case)?,
            "bundles" => {
                let case = table_bundles::with_files(rt, case)?;
                table_bundles::answer(alloc, case.as_str())?
            }
            "pipelines" => table_pipelines::answer(alloc, &mut self.outside, case)?,
            _ => "no table".to_string(alloc)?,
        };
        Ok(answer)
    }
}
