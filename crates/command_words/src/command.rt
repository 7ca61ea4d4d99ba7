use base_types::Text;

/// What `drain` or `run` is asked for.
#[derive(Clone, Copy, Debug)]
pub struct Ask<'w> {
    /// It makes at most so many steps.
    pub steps: Option<u64>,
    /// The name of a bundle that is put into force first.
    pub reload: Option<&'w Text>,
    /// Whether feeds that were read to their end begin anew.
    pub round: bool,
}

/// What `run` is asked for.
#[derive(Clone, Copy, Debug)]
pub struct Run<'w> {
    pub ask: Ask<'w>,
    /// Whether it goes on where nothing is left to do.
    pub stay: bool,
}

/// A command of the program, with the names of files that it was given.
#[derive(Clone, Copy, Debug)]
pub enum Command<'w> {
    /// Messages are read leniently and written in their canonical texts.
    Convert { feed: &'w Text },
    /// A bundle is looked at.
    Check { bundle: &'w Text },
    /// A store is made for a bundle.
    Init { bundle: &'w Text },
    /// The pipeline runs until nothing is left to do.
    Drain(Ask<'w>),
    /// The state is printed.
    Status,
    /// The dumps are printed.
    Dumps,
    /// All generations are gone through with the rules.
    Audit,
    /// A dumped message goes back to its queue.
    Redo { dump: u64 },
    /// A store is made, and a feed of so many lines that the number gives is drained.
    Drill { lines: u32, number: u64 },
}
