ghost use Rattle.std.specs.Prelude.{◌≡◌, IfOk};
ghost use Rattle.sieve_eval.specs.Says.{finds, matches};

use crate::automaton::Automaton;
use base_types::{OutOfMemory, Text};
use regex::Regex;
use std::alloc::Global;
use std::marker::Model;

/// A pattern that was built, and what searches for it have found out. Contracts see its text.
#[derive(Drop)]
pub struct Pattern {
    regex: Regex,
    automaton: Automaton,
}

impl Model for Pattern {
    ghost use Rattle.std.specs.Prelude.{◌≡◌, List, ℕ};
    ghost use Rattle.regex.specs.Patterns.{default_config};
    ghost use Rattle.regex.specs.Strings.{regex_source, regex_config, IsReadFromSource};
    ghost use Rattle.sieve_eval.specs.Automata.{Finds};

    ghost Value = { List ℕ };

    ghost view = { λ p. regex_source p.regex };

    ghost invariant = { λ p. (regex_config p.regex ≡ default_config) × IsReadFromSource p.regex × Finds p.automaton.program (regex_source p.regex) };
}

impl Pattern {
    /// Builds a pattern. A text that can't be built counts as want of memory.
    pub fn build(alloc: Global, text: &Text) -> Result<Pattern, OutOfMemory>
        ensures { IfOk result (λ p. p ≡ text.now) }
    {
        let Ok(regex) = Regex::new(alloc, text.as_str()) else {
            return Err(OutOfMemory);
        };
        let automaton = Automaton::build(alloc, text.as_str())?;
        Ok(Pattern { regex, automaton })
    }

    /// Whether it has a match in the text: by the automaton, or else by the kit's whole search.
    pub fn is_match(&mut self, alloc: Global, text: &str) -> Result<bool, OutOfMemory>
        ensures found { IfOk result (λ found. found ≡ matches text.now self.old) }
        ensures same { self.new ≡ self.old }
    {
        match self.automaton.run(text) {
            Some(found) => Ok(found),
            None => self.search(alloc, text),
        }
    }

    // The kit's whole search. It isn't inlined, since a matcher is large.
    #[inline(never)]
    fn search(&self, alloc: Global, text: &str) -> Result<bool, OutOfMemory>
        ensures { IfOk result (λ found. found ≡ matches text.now self.now) }
    {
        let mut matcher = self.regex.matcher(alloc)?;
        Ok(matcher.is_match(text))
    }
}

/// Patterns by their numbers. Contracts see their texts.
#[derive(Drop)]
pub struct Patterns {
    built: Vec<Pattern>,
}

impl Model for Patterns {
    ghost use Rattle.std.specs.Prelude.{List, ℕ};

    ghost Value = { List (List ℕ) };

    ghost view = { λ p. p.built.items };
}

impl Patterns {
    /// Builds each pattern.
    pub fn build(alloc: Global, texts: &[Text]) -> Result<Patterns, OutOfMemory>
        ensures { IfOk result (λ built. built ≡ texts.now) }
    {
        let mut built = Vec::with_capacity(alloc, texts.len())?;
        'texts: for text in texts {
            built.push(Pattern::build(alloc, text)?)?;
        }
        Ok(Patterns { built })
    }

    /// Whether the pattern with that number has a match in the text.
    pub fn find(&mut self, alloc: Global, n: u32, text: &Text) -> Result<bool, OutOfMemory>
        ensures found { IfOk result (λ found. found ≡ finds self.old n text.now) }
        ensures same { self.new ≡ self.old }
    {
        let n = n as usize;
        if n >= self.built.len() {
            return Ok(false);
        }
        let pattern = &mut self.built[n];
        pattern.is_match(alloc, text.as_str())
    }
}
