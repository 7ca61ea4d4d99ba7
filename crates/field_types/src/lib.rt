//! The fields of a message: their names, kinds and canonical values.
#![tactic(auto)]

mod canonical;
mod cleaning;
mod fault;
mod field;
mod key;
mod kind;
mod name;
mod texts;
mod value;
mod writing;

pub use canonical::is_canonical;
pub use cleaning::{clean_values_stay, sanitise, sanitise_own, sanitise_text};
pub use fault::FieldFault;
pub use field::{FIELDS, type_of, type_of_bytes};
pub use key::FieldKey;
pub use kind::FieldType;
pub use name::FieldName;
pub use texts::{Kept, keep};
pub use value::{Item, ItemList, Value};
pub use writing::{push_name, push_text, push_value};
