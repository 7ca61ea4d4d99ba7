//! The modules, and what is known of each: its word, what its bots are for, the file that they read, how many instances may run.
ghost use Rattle.std.specs.Prelude.{◌≡◌};
ghost use Rattle.serde_json.specs.View.{view};
ghost use Rattle.module_settings.specs.Modules.{facts_of, file_kind, is_collector, is_output, module_of_value, module_words, named_module, reads_file, reads_rules, reads_sieve, reads_table};

use serde_json::Value as Tree;

/// The modules of bots.
#[derive(Clone, Copy, Debug, PartialEq, Eq)]
pub enum ModuleWord {
    /// `collector.file`.
    Collector,
    /// `parser.csv`.
    Csv,
    /// `parser.json`.
    Json,
    /// `expert.sieve`.
    Sieve,
    /// `expert.deduplicator`.
    Dedup,
    /// `expert.prefix`.
    Prefix,
    /// `expert.taxonomy`.
    Taxonomy,
    /// `expert.modify`.
    Modify,
    /// `output.file`.
    Output,
}

// ---- their words

// The module of this name.
fn named(word: &str) -> Option<ModuleWord>
    ensures { result ≡ named_module module_words word.now }
{
    if word == "collector.file" {
        Some(ModuleWord::Collector)
    } else if word == "parser.csv" {
        Some(ModuleWord::Csv)
    } else if word == "parser.json" {
        Some(ModuleWord::Json)
    } else if word == "expert.sieve" {
        Some(ModuleWord::Sieve)
    } else if word == "expert.deduplicator" {
        Some(ModuleWord::Dedup)
    } else if word == "expert.prefix" {
        Some(ModuleWord::Prefix)
    } else if word == "expert.taxonomy" {
        Some(ModuleWord::Taxonomy)
    } else if word == "expert.modify" {
        Some(ModuleWord::Modify)
    } else if word == "output.file" {
        Some(ModuleWord::Output)
    } else {
        None
    }
}

/// The module that a value of JSON names.
pub fn module_of(tree: &Tree) -> Option<ModuleWord>
    ensures { result ≡ module_of_value (view tree.now) }
{
    named(tree.as_str()?)
}

// ---- their facts

/// What the bots of a module are for.
#[derive(Clone, Copy, Debug, PartialEq, Eq)]
pub enum Role {
    /// They report feeds.
    Collector,
    /// They make events of reports.
    Parser,
    /// They make events of events.
    Expert,
    /// They write messages.
    Output,
}

/// What a file of a bundle is.
#[derive(Clone, Copy, Debug, PartialEq, Eq)]
pub enum FileKind {
    /// A sieve's rules.
    Sieve,
    /// A table of networks.
    Table,
    /// A list of rules that set fields.
    Rules,
}

/// How many instances of a bot may run.
#[derive(Clone, Copy, Debug, PartialEq, Eq)]
pub enum Instances {
    /// 1.
    One,
    /// From 1 to 16.
    Several,
}

/// A row of the table.
#[derive(Clone, Copy, Debug)]
pub struct ModuleFacts {
    pub role: Role,
    /// What the file is that its bots read, if they read one. Its name is the parameter `file`.
    pub file: Option<FileKind>,
    pub instances: Instances,
}

fn row(role: Role, file: Option<FileKind>, instances: Instances) -> ModuleFacts
    ensures { result ≡ record { role = role; file = file; instances = instances } }
{
    ModuleFacts {
        role,
        file,
        instances,
    }
}

/// The facts of a module.
pub fn facts_of(word: ModuleWord) -> ModuleFacts
    ensures { result ≡ facts_of word }
{
    match word {
        ModuleWord::Collector => row(Role::Collector, None, Instances::One),
        ModuleWord::Csv => row(Role::Parser, None, Instances::Several),
        ModuleWord::Json => row(Role::Parser, None, Instances::Several),
        ModuleWord::Sieve => row(Role::Expert, Some(FileKind::Sieve), Instances::Several),
        ModuleWord::Dedup => row(Role::Expert, None, Instances::Several),
        ModuleWord::Prefix => row(Role::Expert, Some(FileKind::Table), Instances::Several),
        ModuleWord::Taxonomy => row(Role::Expert, None, Instances::Several),
        ModuleWord::Modify => row(Role::Expert, Some(FileKind::Rules), Instances::Several),
        ModuleWord::Output => row(Role::Output, None, Instances::Several),
    }
}

/// Whether the module is that of collectors; one that isn't known isn't, here and below.
pub fn is_collector(word: Option<ModuleWord>) -> bool
    ensures { result ≡ is_collector word }
{
    match word {
        Some(word) => matches!(facts_of(word).role, Role::Collector),
        None => false,
    }
}

/// Whether the module is that of outputs.
pub fn is_output(word: Option<ModuleWord>) -> bool
    ensures { result ≡ is_output word }
{
    match word {
        Some(word) => matches!(facts_of(word).role, Role::Output),
        None => false,
    }
}

/// What the file of a bundle is that the module's bots read, if they read one.
pub fn file_kind(word: Option<ModuleWord>) -> Option<FileKind>
    ensures { result ≡ file_kind word }
{
    match word {
        Some(word) => facts_of(word).file,
        None => None,
    }
}

/// Whether the module's bots read a file of the bundle.
pub fn reads_file(word: Option<ModuleWord>) -> bool
    ensures { result ≡ reads_file word }
{
    file_kind(word).is_some()
}

/// Whether that file is a sieve's.
pub fn reads_sieve(word: Option<ModuleWord>) -> bool
    ensures { result ≡ reads_sieve word }
{
    match file_kind(word) {
        Some(FileKind::Sieve) => true,
        Some(FileKind::Table | FileKind::Rules) | None => false,
    }
}

/// Whether that file is a table.
pub fn reads_table(word: Option<ModuleWord>) -> bool
    ensures { result ≡ reads_table word }
{
    match file_kind(word) {
        Some(FileKind::Table) => true,
        Some(FileKind::Sieve | FileKind::Rules) | None => false,
    }
}

/// Whether that file has rules that set fields.
pub fn reads_rules(word: Option<ModuleWord>) -> bool
    ensures { result ≡ reads_rules word }
{
    match file_kind(word) {
        Some(FileKind::Rules) => true,
        Some(FileKind::Sieve | FileKind::Table) | None => false,
    }
}
