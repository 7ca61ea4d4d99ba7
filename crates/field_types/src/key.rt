ghost use Rattle.std.specs.Prelude.{◌≡◌, Some, IfSome, option_map, slice_get};
ghost use Rattle.std.specs.Ordering.{nat_cmp};
ghost use Rattle.std.specs.Cmp.Lexicographic.{slice_cmp};
ghost use Rattle.field_types.specs.Field.{type_of};
ghost use Rattle.field_types.specs.Names.{row_name, rows};
ghost use Rattle.field_types.specs.Known.{IsRowOf};

use crate::FieldType;
use crate::field::{Row, compare_rows, kind_of, name_of, row_of, type_of_bytes};
use std::cmp::Ordering;
use std::marker::Model;

/// A name to look for, which may be that of a field. Contracts see its bytes. Two names of the table of fields are compared
/// by the numbers of their rows, which is as by their bytes.
#[derive(Clone, Drop)]
pub struct FieldKey<'t> {
    text: &'t str,
    row: Option<Row>,
}

impl<'t> Model for FieldKey<'t> {
    ghost use Rattle.std.specs.Prelude.{List, ℕ};
    ghost use Rattle.field_types.specs.Known.{IsRowOf};

    ghost Value = { List ℕ };

    ghost view = { λ k. k.text.now };

    ghost invariant = { λ k. IsRowOf k.row k.text.now };
}

impl<'t> FieldKey<'t> {
    /// The name of this text. It takes no memory.
    pub fn new(text: &'t str) -> FieldKey<'t>
        ensures { result ≡ text.now }
    {
        match row_of(text.as_bytes()) {
            Some(row) => FieldKey::with_row(text, Some(row)),
            None => FieldKey::with_row(text, None),
        }
    }

    // The name of this text, with its row of the table, if that is known.
    pub(crate) fn with_row(text: &'t str, row: Option<Row>) -> FieldKey<'t>
        requires { IsRowOf row text.now }
        ensures { result ≡ text.now }
    {
        FieldKey { text, row }
    }

    pub(crate) fn row(&self) -> Option<Row>
        ensures { IsRowOf result self.now }
    {
        self.row
    }

    /// The kind of the field; None exactly where there is no field of this name. It takes no memory.
    pub fn kind(&self) -> Option<FieldType>
        ensures { result ≡ type_of self.now }
    {
        match self.row {
            Some(row) => Some(kind_of(row)),
            None => type_of_bytes(self.text.as_bytes()),
        }
    }

    /// The number of its row of the table of fields, if it is known as a name of the table.
    pub fn number(&self) -> Option<u8>
        ensures { IfSome result (λ n. option_map row_name (slice_get rows n) ≡ Some self.now) }
    {
        match self.row {
            Some(row) => Some(row.number),
            None => None,
        }
    }

    pub fn as_str(&self) -> &'t str
        ensures { result.now ≡ self.now }
    {
        self.text
    }

    /// The same name, borrowed from nothing, if it is known as one of the table.
    pub fn known(&self) -> Option<FieldKey<'static>>
        ensures { IfSome result (λ known. known ≡ self.now) }
    {
        let row = self.row?;
        Some(FieldKey::with_row(name_of(row), Some(row)))
    }

    /// The order of the names' bytes.
    pub fn compare(&self, other: &FieldKey<'_>) -> Ordering
        ensures { result ≡ slice_cmp nat_cmp self.now other.now }
    {
        match (self.row, other.row) {
            (Some(row), Some(other)) => compare_rows(row, other),
            _ => self.text.as_bytes().cmp(other.text.as_bytes()),
        }
    }
}
