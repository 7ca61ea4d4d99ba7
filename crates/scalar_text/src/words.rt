ghost use Rattle.std.specs.Prelude.{◌≡◌, ◌<◌, ℕ, List, Some, map, option_and_then, slice_get};
ghost use Rattle.std.specs.Option.{option_copied};
ghost use Rattle.std.specs.Str.{str_eq_ignore_ascii_case};
ghost use Rattle.base_types.specs.Scalar.{IsReadAs, IsReadPlainly};
ghost use Rattle.scalar_text.specs.Words.{spelled, tlp_words, registry_words, flag_words, tlp_of, registry_of, registry_name, classes, class_in, if_word, taxonomy_word_in, taxonomy_in, flag_of};
ghost use Rattle.scalar_text.specs.declared.words.TheConstants as table;

use base_types::{Bad, ScalarFault, Text};
use std::alloc::Global;

/// The marks of the Traffic Light Protocol, 1.0 and 2.0.
pub const TLP_WORDS: [&str; 6] = ["RED", "AMBER", "AMBER+STRICT", "GREEN", "CLEAR", "WHITE"];

/// The spellings of the regional Internet registries.
pub const REGISTRY_WORDS: [&str; 7] = [
    "AFRINIC", "APNIC", "ARIN", "LACNIC", "RIPE", "RIPE-NCC", "RIPENCC",
];

/// The spellings of flags.
pub const FLAG_WORDS: [&str; 6] = ["true", "yes", "1", "false", "no", "0"];

/// The types of incidents, each with its taxonomy, after the Reference Security Incident Taxonomy.
pub const CLASSES: [(&str, &str); 44] = [
    ("harmful-speech", "abusive-content"),
    ("spam", "abusive-content"),
    ("violence", "abusive-content"),
    ("ddos", "availability"),
    ("dos", "availability"),
    ("misconfiguration", "availability"),
    ("outage", "availability"),
    ("sabotage", "availability"),
    ("copyright", "fraud"),
    ("masquerade", "fraud"),
    ("phishing", "fraud"),
    ("unauthorized-use-of-resources", "fraud"),
    ("data-leak", "information-content-security"),
    ("data-loss", "information-content-security"),
    (
        "unauthorised-information-access",
        "information-content-security",
    ),
    (
        "unauthorised-information-modification",
        "information-content-security",
    ),
    ("scanner", "information-gathering"),
    ("sniffing", "information-gathering"),
    ("social-engineering", "information-gathering"),
    ("brute-force", "intrusion-attempts"),
    ("exploit", "intrusion-attempts"),
    ("ids-alert", "intrusion-attempts"),
    ("application-compromise", "intrusions"),
    ("burglary", "intrusions"),
    ("privileged-account-compromise", "intrusions"),
    ("system-compromise", "intrusions"),
    ("unprivileged-account-compromise", "intrusions"),
    ("c2-server", "malicious-code"),
    ("infected-system", "malicious-code"),
    ("malware-configuration", "malicious-code"),
    ("malware-distribution", "malicious-code"),
    ("blacklist", "other"),
    ("dga-domain", "other"),
    ("malware", "other"),
    ("other", "other"),
    ("proxy", "other"),
    ("tor", "other"),
    ("undetermined", "other"),
    ("test", "test"),
    ("ddos-amplifier", "vulnerable"),
    ("information-disclosure", "vulnerable"),
    ("potentially-unwanted-accessible", "vulnerable"),
    ("vulnerable-system", "vulnerable"),
    ("weak-crypto", "vulnerable"),
];

type Row = (&'static str, &'static str);

fn is_spelling(word: &str, text: &[u8]) -> bool
    ensures { result ≡ str_eq_ignore_ascii_case word.now text.now }
{
    word.as_bytes().eq_ignore_ascii_case(text)
}

// The word that the text spells, in any case.
fn spelled(words: &[&'static str], text: &[u8]) -> Option<&'static str>
    ensures { option_copied result ≡ spelled (map (λ word. word.now) words.now) text.now }
{
    'words: for word in words {
        if is_spelling(word, text) {
            return Some(word);
        }
    }
    None
}

fn text_of(alloc: Global, word: Option<&'static str>) -> Result<Text, ScalarFault>
    ensures { IsReadAs (option_copied word.entry) result }
{
    match word {
        Some(word) => Ok(Text::from(String::from_str(alloc, word)?)),
        None => Err(ScalarFault::Bad),
    }
}

/// The word of a mark of the Traffic Light Protocol, in upper case, which the text spells in any case. It takes no memory.
pub fn tlp_word(text: &[u8]) -> Option<&'static str>
    ensures { option_copied result ≡ tlp_of text.now }
{
    spelled(&TLP_WORDS, text)
}

/// A mark of the Traffic Light Protocol, in any case: its word in upper case.
pub fn read_tlp(alloc: Global, text: &[u8]) -> Result<Text, ScalarFault>
    ensures { IsReadAs (tlp_of text.now) result }
{
    text_of(alloc, tlp_word(text))
}

// The name of a registry, by a spelling of it.
fn registry_name(word: &'static str) -> &'static str
    ensures { result.now ≡ registry_name word.now }
{
    if word == "RIPE-NCC" || word == "RIPENCC" {
        "RIPE"
    } else {
        word
    }
}

/// The name of a regional Internet registry, in upper case, which the text spells in any case. It takes no memory.
pub fn registry_word(text: &[u8]) -> Option<&'static str>
    ensures { option_copied result ≡ registry_of text.now }
{
    match spelled(&REGISTRY_WORDS, text) {
        Some(word) => Some(registry_name(word)),
        None => None,
    }
}

/// A regional Internet registry, in any case: its name in upper case. `RIPE-NCC` and `RIPENCC` are spellings of `RIPE`.
pub fn read_registry(alloc: Global, text: &[u8]) -> Result<Text, ScalarFault>
    ensures { IsReadAs (registry_of text.now) result }
{
    text_of(alloc, registry_word(text))
}

// The first type of these that the text spells.
fn class_in(rows: &[Row], text: &[u8]) -> Option<&'static str>
    ensures { option_copied result ≡ class_in (map (λ row. (row.0.now, row.1.now)) rows.now) text.now }
{
    'rows: for row in rows {
        if is_spelling(row.0, text) {
            return Some(row.0);
        }
    }
    None
}

// The first taxonomy of these that the text spells.
fn taxonomy_word_in(rows: &[Row], text: &[u8]) -> Option<&'static str>
    ensures { option_copied result ≡ taxonomy_word_in (map (λ row. (row.0.now, row.1.now)) rows.now) text.now }
{
    'rows: for row in rows {
        if is_spelling(row.1, text) {
            return Some(row.1);
        }
    }
    None
}

// The taxonomy in the row of that type.
fn taxonomy_in(rows: &[Row], class: &[u8]) -> Option<&'static str>
    ensures { option_copied result ≡ taxonomy_in (map (λ row. (row.0.now, row.1.now)) rows.now) class.now }
{
    'rows: for row in rows {
        if row.0.as_bytes() == class {
            return Some(row.1);
        }
    }
    None
}

// Where the row of a type stands, by the hash of its word; behind the last row where no word has that hash.
const CLASS_ROWS: [u8; 128] = [
    44, 44, 19, 9, 11, 29, 43, 44, 13, 44, 44, 44, 44, 44, 44, 22, 44, 44, 17, 44, 31, 5, 44, 44,
    44, 20, 44, 44, 44, 44, 33, 40, 44, 44, 44, 44, 44, 44, 44, 44, 21, 44, 23, 34, 4, 18, 44, 42,
    44, 44, 44, 28, 44, 44, 41, 44, 44, 3, 44, 0, 44, 44, 10, 38, 44, 44, 44, 44, 44, 8, 44, 44,
    44, 44, 36, 44, 15, 44, 44, 44, 44, 44, 39, 44, 44, 44, 44, 44, 44, 14, 44, 44, 44, 44, 44, 44,
    44, 44, 44, 16, 25, 44, 44, 44, 44, 44, 35, 44, 7, 1, 44, 6, 37, 44, 26, 44, 44, 30, 44, 44,
    12, 44, 24, 2, 27, 32, 44, 44,
];

const LONGEST_CLASS: usize = 37;

// The words of the types differ in it. Only speed stands on that.
fn class_hash(word: &[u8]) -> usize
    ensures { result < 128 }
{
    let len = word.len();
    if len == 0 || len > LONGEST_CLASS {
        return 0;
    }
    let sum = len * 13
        + usize::from(word[0]) * 2
        + usize::from(word[len / 2]) * 25
        + usize::from(word[len - 1]) * 2;
    sum % 128
}

// The word of the row there, if it is the text as it stands.
fn word_at(rows: &[Row], at: usize, text: &[u8]) -> Option<&'static str>
    ensures { option_copied result ≡ option_and_then (if_word text.now) (slice_get (map (λ row. (row.0.now, row.1.now)) rows.now) at) }
{
    let row = rows.get(at)?;
    if row.0.as_bytes() == text {
        Some(row.0)
    } else {
        None
    }
}

/// The word of a type of incidents, in lower case, which the text spells in any case. It takes no memory.
pub fn class_word(text: &[u8]) -> Option<&'static str>
    ensures { option_copied result ≡ class_in classes text.now }
{
    let at = CLASS_ROWS[class_hash(text)];
    match word_at(&CLASSES, usize::from(at), text) {
        Some(word) => Some(word),
        None => class_in(&CLASSES, text),
    }
}

/// The type of an incident, in any case: its word in lower case.
pub fn read_class(alloc: Global, text: &[u8]) -> Result<Text, ScalarFault>
    ensures { IsReadAs (class_in classes text.now) result }
{
    text_of(alloc, class_word(text))
}

/// The word of a taxonomy, in lower case, which the text spells in any case. It takes no memory.
pub fn taxonomy_word(text: &[u8]) -> Option<&'static str>
    ensures { option_copied result ≡ taxonomy_word_in classes text.now }
{
    taxonomy_word_in(&CLASSES, text)
}

/// The taxonomy of an incident, in any case: its word in lower case.
pub fn read_taxonomy(alloc: Global, text: &[u8]) -> Result<Text, ScalarFault>
    ensures { IsReadAs (taxonomy_word_in classes text.now) result }
{
    text_of(alloc, taxonomy_word(text))
}

/// The taxonomy of a type of incidents, by the type's canonical word. It takes no memory.
pub fn taxonomy_of(class: &Text) -> Option<&'static str>
    ensures { option_copied result ≡ taxonomy_in classes class.now }
{
    taxonomy_in(&CLASSES, class.bytes())
}

/// A flag, in any case: `true`, `yes` and `1`, or `false`, `no` and `0`. It takes no memory.
pub fn read_flag(text: &[u8]) -> Result<bool, Bad>
    ensures { IsReadPlainly (flag_of text.now) result }
{
    match spelled(&FLAG_WORDS, text) {
        Some("true" | "yes" | "1") => Ok(true),
        Some(_) => Ok(false),
        None => Err(Bad),
    }
}

/// To clean a word twice is to clean it once.
pub fn clean_words_stay(text: &[u8])
    ensures tlp { (word : List ℕ) → tlp_of text.now ≡ Some word → tlp_of word ≡ Some word }
    ensures registry { (word : List ℕ) → registry_of text.now ≡ Some word → registry_of word ≡ Some word }
    ensures class { (word : List ℕ) → class_in classes text.now ≡ Some word → class_in classes word ≡ Some word }
    ensures taxonomy { (word : List ℕ) → taxonomy_word_in classes text.now ≡ Some word → taxonomy_word_in classes word ≡ Some word }
{}

/// The tables of the code are those of the definitions, row by row.
pub fn tables_are_those_defined()
    ensures tlp { map (λ word. word.now) table.TLP_WORDS ≡ tlp_words }
    ensures registry { map (λ word. word.now) table.REGISTRY_WORDS ≡ registry_words }
    ensures flag { map (λ word. word.now) table.FLAG_WORDS ≡ flag_words }
    ensures class { map (λ row. (row.0.now, row.1.now)) table.CLASSES ≡ classes }
{}
