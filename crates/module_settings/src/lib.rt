//! The settings of modules: what is known of each by its word, which parameters it has, what a value of JSON is taken as, and
//! tables of networks.
#![tactic(auto)]

mod form;
mod module;
mod parameter;
mod setting;
mod table;
mod taken;
mod texts;

pub use form::{Form, Words};
pub use module::{
    FileKind, Instances, ModuleFacts, ModuleWord, Role, facts_of, file_kind, is_collector,
    is_output, module_of, reads_file, reads_rules, reads_sieve, reads_table,
};
pub use parameter::{
    Otherwise, Parameter, own_parameters, parameters_of, setting_of, shared_parameters,
};
pub use setting::Setting;
pub use table::{FieldsList, NetworkList, Rows, Table, TableFault, row_count, table_in};
pub use taken::{is_file_name, taken_as};
pub use texts::{copies_of, text_of, texts_in, texts_of};
