ghost use Rattle.std.specs.Prelude.{◌≡◌, true, flat_map, IfOk, IfSome, OnSome};
ghost use Rattle.std.specs.Str.{bytes_eq, is_utf8};
ghost use Rattle.std.specs.Ordering.{nat_cmp};
ghost use Rattle.std.specs.Cmp.Lexicographic.{slice_cmp};
ghost use Rattle.std.proofs.Common.{rules};
ghost use Rattle.std.specs.Cmp.Rules.{comparing};
ghost use Rattle.field_types.specs.Field.{type_of};
ghost use Rattle.field_types.specs.Known.{IsRowOf};
ghost use Rattle.base_types.specs.JsonText.{escaped};

use crate::field::{Row, compare_rows, kind_of, name_of, row_of, type_of};
use crate::{FieldKey, FieldType};
use base_types::{OutOfMemory, Text};
use std::alloc::Global;
use std::cmp::Ordering;
use std::marker::Model;

// Names of the table of fields take no memory.
#[derive(Debug, Drop)]
enum Name {
    Known(Row),
    Other(Text),
}

/// The name of a field. Contracts see its bytes.
#[derive(Debug, Drop)]
pub struct FieldName {
    name: Name,
}

impl Model for FieldName {
    ghost use Rattle.std.specs.Prelude.{List, ℕ};
    ghost use Rattle.field_types.specs.Known.{name_bytes};

    ghost Value = { List ℕ };

    ghost view = { λ n. name_bytes n.name };
}

impl PartialEq for FieldName {
    ghost eq = { bytes_eq };

    ghost laws = { Prim.search (comparing, rules) };

    fn eq(&self, other: &FieldName) -> bool {
        self.as_str() == other.as_str()
    }
}

impl Eq for FieldName {
    ghost laws = { Prim.search (comparing, rules) };
}

impl From<Text> for FieldName {
    ghost from_gives = { λ text name. name ≡ text };

    fn from(text: Text) -> Self {
        FieldName {
            name: Name::Other(text),
        }
    }
}

impl FieldName {
    /// The name of this text. One of the table of fields takes no memory.
    pub fn new(alloc: Global, name: &str) -> Result<FieldName, OutOfMemory>
        ensures { IfOk result (λ made. made ≡ name.now) }
    {
        match FieldName::known(name.as_bytes()) {
            Some(known) => Ok(known),
            None => Ok(FieldName::from(Text::from(String::from_str(alloc, name)?))),
        }
    }

    /// The name in the table of fields that these bytes are. It stands in a JSON string as it is.
    pub fn known(name: &[u8]) -> Option<FieldName>
        ensures named { IfSome result (λ known. known ≡ name.now) }
        ensures utf8 { OnSome result (is_utf8 name.now ≡ true) }
        ensures plain { OnSome result (flat_map escaped name.now ≡ name.now) }
    {
        match row_of(name) {
            Some(row) => Some(FieldName {
                name: Name::Known(row),
            }),
            None => None,
        }
    }

    /// The kind of the field; None exactly where there is no field of this name. It takes no memory.
    pub fn kind(&self) -> Option<FieldType>
        ensures { result ≡ type_of self.now }
    {
        match &self.name {
            Name::Known(row) => Some(kind_of(*row)),
            Name::Other(name) => type_of(name),
        }
    }

    pub fn as_str(&self) -> &str
        ensures { result.now ≡ self.now }
    {
        match &self.name {
            Name::Known(row) => name_of(*row),
            Name::Other(text) => text.as_str(),
        }
    }

    pub fn bytes(&self) -> &[u8]
        ensures { result.now ≡ self.now }
    {
        self.as_str().as_bytes()
    }

    fn row(&self) -> Option<Row>
        ensures { IsRowOf result self.now }
    {
        match &self.name {
            Name::Known(row) => Some(*row),
            Name::Other(_) => None,
        }
    }

    /// The name, to look for.
    pub fn as_key(&self) -> FieldKey<'_>
        ensures { result ≡ self.now }
    {
        FieldKey::with_row(self.as_str(), self.row())
    }

    /// The order of the names' bytes.
    pub fn compare(&self, other: &FieldName) -> Ordering
        ensures { result ≡ slice_cmp nat_cmp self.now other.now }
    {
        match (self.row(), other.row()) {
            (Some(row), Some(other)) => compare_rows(row, other),
            _ => self.bytes().cmp(other.bytes()),
        }
    }

    /// The order of the names' bytes.
    pub fn compare_key(&self, key: &FieldKey<'_>) -> Ordering
        ensures { result ≡ slice_cmp nat_cmp self.now key.now }
    {
        match (self.row(), key.row()) {
            (Some(row), Some(other)) => compare_rows(row, other),
            _ => self.bytes().cmp(key.as_str().as_bytes()),
        }
    }

    pub fn copy(&self, alloc: Global) -> Result<FieldName, OutOfMemory>
        ensures { IfOk result (λ copied. copied ≡ self.now) }
    {
        match &self.name {
            Name::Known(row) => Ok(FieldName {
                name: Name::Known(*row),
            }),
            Name::Other(text) => Ok(FieldName::from(text.copy(alloc)?)),
        }
    }
}
