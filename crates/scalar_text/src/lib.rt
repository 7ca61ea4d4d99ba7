//! Numbers, flags, times, words and bytes as texts.
#![tactic(auto)]

mod blanks;
mod number;
mod printing;
mod quote;
mod raw;
mod time;
mod words;

pub use blanks::strip;
pub use number::{
    decimal_of_a_text_is_one, number_forms_are_exact, read_decimal, read_port, read_whole,
};
pub use printing::{
    canonical_decimal_is_printed, decimal_texts_differ, is_printed_decimal, is_printed_whole,
    print_decimal, printed_decimal_reads_back, printed_decimals_are_canonical,
};
pub use quote::{has_decimals, quote_decimals, quoting_again_changes_nothing};
pub use raw::{read_raw, write_raw};
pub use time::{
    TimeFault, is_printed_time, print_time, printed_time_reads_back, read_time,
    time_forms_are_exact, time_of_a_text_is_one,
};
pub use words::{
    CLASSES, FLAG_WORDS, REGISTRY_WORDS, TLP_WORDS, class_word, clean_words_stay, read_class,
    read_flag, read_registry, read_taxonomy, read_tlp, registry_word, tables_are_those_defined,
    taxonomy_of, taxonomy_word, tlp_word,
};
