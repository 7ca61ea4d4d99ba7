ghost use Rattle.std.specs.Prelude.{◌≡◌, ◌<◌, is_some, IfOk, IfSome};
ghost use Rattle.regex_dfa.specs.Search.{IsForwardFor};
ghost use Rattle.regex_hir.specs.Find.{find};
ghost use Rattle.regex_hir.specs.Meaning.{meaning};
ghost use Rattle.sieve_eval.specs.Automata.{Finds};

use base_types::OutOfMemory;
use regex_dfa::{End, Forward};
use regex_meta::Program;
use regex_syntax::{Config, Parsed, parse};
use std::alloc::Global;

// About how many bytes the tables of a pattern may take, and what its runs have found out.
const TABLES: usize = 10 << 20;

const KEPT: usize = 1 << 20;

/// An automaton of a pattern. It keeps what its runs find out, so that later ones are faster.
#[derive(Drop)]
pub struct Automaton {
    pub program: Program,
    forward: Forward,
    ghost own: { IsForwardFor forward program.dfa },
}

impl Automaton {
    /// The automaton of a pattern. One that can't be built counts as want of memory.
    pub fn build(alloc: Global, text: &str) -> Result<Automaton, OutOfMemory>
        ensures { IfOk result (λ a. Finds a.program text.now) }
    {
        let Ok(Parsed { hir, names }) = parse(alloc, text, &Config::default()) else {
            return Err(OutOfMemory);
        };
        let Ok(groups) = u32::try_from(names.len()) else {
            return Err(OutOfMemory);
        };
        let Ok(program) = Program::new(alloc, hir, groups, TABLES) else {
            return Err(OutOfMemory);
        };
        let forward = Forward::with_budget(alloc, &program.dfa, false, KEPT)?;
        Ok(Automaton { program, forward })
    }

    /// Whether the pattern has a match in the text, if no empty text matches it. It may give up.
    pub fn run(&mut self, text: &str) -> Option<bool>
        ensures found { IfSome result (λ found. found ≡ is_some (find (meaning self.old.program.hir) text.now 0)) }
        ensures filled { IfSome result (λ _. 0 < self.old.program.min_len) }
        ensures same_tree { self.new.program.hir ≡ self.old.program.hir }
        ensures same_length { self.new.program.min_len ≡ self.old.program.min_len }
    {
        if self.program.min_len == 0 {
            return None;
        }
        let hay = text.as_bytes();
        match self
            .forward
            .find_end(&self.program.dfa, hay, 0, hay.len(), false, true)
        {
            End::At(_) => Some(true),
            End::NoMatch => Some(false),
            End::Idle(_) => None,
            End::GaveUp => None,
        }
    }
}
