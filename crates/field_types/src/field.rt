ghost use Rattle.std.specs.Prelude.{◌≡◌, ◌<◌, true, None, Some, OnSome, MatchOption, nat_le, map, length, is_some, option_and_then, slice_get};
ghost use Rattle.std.specs.List.{list_all};
ghost use Rattle.std.specs.Ordering.{nat_cmp};
ghost use Rattle.std.specs.Cmp.Lexicographic.{slice_cmp};
ghost use Rattle.std.specs.Str.{is_utf8};
ghost use Rattle.field_types.specs.Field.{type_of, kind_in, field_table, is_extra_name, is_extra_part};
ghost use Rattle.field_types.specs.Hash.{hash, if_named};
ghost use Rattle.field_types.specs.Names.{bytes_in_row, rows};

use crate::FieldType;
use base_types::Text;
use std::cmp::Ordering;
use std::str;

/// The table of fields, in byte order of their names.
pub const FIELDS: [(&str, FieldType); 84] = [
    ("classification.identifier", FieldType::Text),
    ("classification.taxonomy", FieldType::Taxonomy),
    ("classification.type", FieldType::Class),
    ("comment", FieldType::Text),
    ("destination.abuse_contact", FieldType::Lower),
    ("destination.account", FieldType::Text),
    ("destination.allocated", FieldType::DateTime),
    ("destination.as_name", FieldType::Text),
    ("destination.asn", FieldType::Asn),
    ("destination.domain_suffix", FieldType::Lower),
    ("destination.fqdn", FieldType::Fqdn),
    ("destination.geolocation.cc", FieldType::Cc),
    ("destination.geolocation.city", FieldType::Text),
    ("destination.geolocation.country", FieldType::Text),
    ("destination.geolocation.latitude", FieldType::Decimal),
    ("destination.geolocation.longitude", FieldType::Decimal),
    ("destination.geolocation.region", FieldType::Text),
    ("destination.geolocation.state", FieldType::Text),
    ("destination.ip", FieldType::Ip),
    ("destination.local_hostname", FieldType::Text),
    ("destination.local_ip", FieldType::Ip),
    ("destination.network", FieldType::Network),
    ("destination.port", FieldType::Port),
    ("destination.registry", FieldType::Registry),
    ("destination.reverse_dns", FieldType::Fqdn),
    ("destination.tor_node", FieldType::Flag),
    ("destination.url", FieldType::Url),
    ("destination.urlpath", FieldType::Text),
    ("event_description.target", FieldType::Text),
    ("event_description.text", FieldType::Text),
    ("event_description.url", FieldType::Url),
    ("event_hash", FieldType::Upper),
    ("feed.accuracy", FieldType::Accuracy),
    ("feed.code", FieldType::Text),
    ("feed.documentation", FieldType::Text),
    ("feed.name", FieldType::Text),
    ("feed.provider", FieldType::Text),
    ("feed.url", FieldType::Url),
    ("malware.hash", FieldType::Lower),
    ("malware.hash.md5", FieldType::Lower),
    ("malware.hash.sha1", FieldType::Lower),
    ("malware.hash.sha256", FieldType::Lower),
    ("malware.name", FieldType::Lower),
    ("malware.version", FieldType::Text),
    ("misp.attribute_uuid", FieldType::Lower),
    ("misp.event_uuid", FieldType::Lower),
    ("output", FieldType::Text),
    ("product.full_name", FieldType::Text),
    ("product.name", FieldType::Text),
    ("product.vendor", FieldType::Text),
    ("product.version", FieldType::Text),
    ("protocol.application", FieldType::Lower),
    ("protocol.transport", FieldType::Lower),
    ("raw", FieldType::Raw),
    ("rtir_id", FieldType::Whole),
    ("screenshot_url", FieldType::Url),
    ("source.abuse_contact", FieldType::Lower),
    ("source.account", FieldType::Text),
    ("source.allocated", FieldType::DateTime),
    ("source.as_name", FieldType::Text),
    ("source.asn", FieldType::Asn),
    ("source.domain_suffix", FieldType::Lower),
    ("source.fqdn", FieldType::Fqdn),
    ("source.geolocation.cc", FieldType::Cc),
    ("source.geolocation.city", FieldType::Text),
    ("source.geolocation.country", FieldType::Text),
    ("source.geolocation.latitude", FieldType::Decimal),
    ("source.geolocation.longitude", FieldType::Decimal),
    ("source.geolocation.region", FieldType::Text),
    ("source.geolocation.state", FieldType::Text),
    ("source.ip", FieldType::Ip),
    ("source.local_hostname", FieldType::Text),
    ("source.local_ip", FieldType::Ip),
    ("source.network", FieldType::Network),
    ("source.port", FieldType::Port),
    ("source.registry", FieldType::Registry),
    ("source.reverse_dns", FieldType::Fqdn),
    ("source.tor_node", FieldType::Flag),
    ("source.url", FieldType::Url),
    ("source.urlpath", FieldType::Text),
    ("status", FieldType::Text),
    ("time.observation", FieldType::DateTime),
    ("time.source", FieldType::DateTime),
    ("tlp", FieldType::Tlp),
];

const EXTRA_FRONT: &[u8] = b"extra.";

const LONGEST_EXTRA_PART: usize = 200;

fn has_no_control(name: &[u8]) -> bool
    ensures { result ≡ list_all (λ b. nat_le 32 b) name.now }
{
    name.iter().all(|b| *b >= 32)
}

#[tactic(auto, using(crate::proofs::Utf8::utf8_ok, crate::proofs::Utf8::utf8_err))]
fn is_utf8(name: &[u8]) -> bool
    ensures { result ≡ is_utf8 name.now }
{
    match str::from_utf8(name) {
        Ok(_) => true,
        Err(_) => false,
    }
}

// What may stand behind `extra.`.
fn is_extra_part(name: &[u8]) -> bool
    ensures { result ≡ is_extra_part name.now }
{
    !name.is_empty() && name.len() <= LONGEST_EXTRA_PART && has_no_control(name) && is_utf8(name)
}

// The same of a text, whose bytes are UTF-8.
fn is_extra_text(name: &str) -> bool
    ensures { result ≡ is_extra_part name.now }
{
    !name.is_empty() && name.len() <= LONGEST_EXTRA_PART && has_no_control(name.as_bytes())
}

fn is_extra_name(key: &[u8]) -> bool
    ensures { result ≡ is_extra_name key.now }
{
    match key.strip_prefix(EXTRA_FRONT) {
        Some(name) => is_extra_part(name),
        None => false,
    }
}

// As `is_extra_name`, of a text.
fn is_extra(key: &str) -> bool
    ensures { result ≡ is_extra_name key.now }
{
    match key.strip_prefix("extra.") {
        Some(name) => is_extra_text(name),
        None => false,
    }
}

// Where the row of a name stands, by the name's hash; behind the last row where no name has that hash.
const ROWS: [u8; 256] = [
    84, 84, 37, 53, 84, 21, 25, 82, 67, 84, 84, 84, 84, 4, 51, 2, 18, 26, 84, 84, 29, 84, 84, 84,
    84, 8, 84, 84, 84, 84, 84, 24, 84, 84, 12, 84, 10, 50, 84, 84, 84, 84, 73, 84, 84, 84, 84, 6,
    84, 74, 20, 84, 84, 84, 55, 7, 84, 84, 84, 64, 22, 71, 84, 84, 84, 84, 69, 84, 84, 84, 84, 72,
    46, 84, 84, 84, 84, 84, 84, 84, 84, 84, 84, 84, 84, 9, 52, 3, 38, 84, 84, 27, 84, 84, 84, 84,
    57, 43, 84, 84, 84, 84, 84, 63, 84, 84, 78, 84, 84, 84, 84, 70, 84, 68, 60, 5, 84, 84, 31, 84,
    16, 84, 84, 84, 84, 84, 84, 84, 84, 84, 84, 36, 84, 84, 84, 84, 19, 44, 84, 84, 84, 62, 84, 84,
    84, 32, 34, 84, 76, 84, 39, 84, 81, 33, 65, 84, 84, 84, 84, 84, 42, 84, 84, 84, 84, 84, 61, 84,
    28, 84, 84, 84, 84, 84, 79, 13, 84, 83, 84, 54, 84, 84, 84, 84, 11, 84, 84, 15, 49, 84, 14, 84,
    84, 41, 84, 47, 84, 84, 84, 84, 84, 84, 23, 84, 84, 84, 56, 84, 84, 84, 84, 84, 84, 35, 84, 84,
    84, 84, 84, 75, 84, 1, 84, 0, 84, 84, 84, 84, 84, 84, 58, 17, 84, 30, 84, 84, 59, 84, 84, 84,
    48, 84, 84, 84, 84, 84, 84, 40, 80, 84, 84, 45, 84, 66, 84, 77,
];

// Longer than each name of the table.
const LONG_NAME: usize = 40;

// The names of the table differ in it.
#[tactic(auto, unfolding(crate::specs::Hash::hash))]
fn hash(name: &[u8]) -> usize
    ensures value { result ≡ hash name.now }
    ensures within { result < 256 }
{
    let len = name.len();
    if len == 0 || len > LONG_NAME {
        return 0;
    }
    let sum = len * 11
        + usize::from(name[len / 3]) * 4
        + usize::from(name[len * 2 / 3]) * 14
        + usize::from(name[len - 1]) * 4;
    sum % 256
}

/// A row of the table, by its number.
#[derive(Clone, Copy, Debug)]
pub(crate) struct Row {
    pub number: u8,
    pub ghost in_table: { number < length rows },
}

// The table as it stands in memory.
#[tactic(auto, unfolding(crate::specs::Names::rows))]
fn fields() -> &'static [(&'static str, FieldType)]
    ensures { map (λ row. (row.0.now, row.1)) result.now ≡ rows }
{
    &FIELDS
}

/// The name of a row.
pub(crate) fn name_of(row: Row) -> &'static str
    ensures { result.now ≡ bytes_in_row row.number }
{
    fields()[usize::from(row.number)].0
}

/// The kind of a row.
pub(crate) fn kind_of(row: Row) -> FieldType
    ensures { Some result ≡ type_of (bytes_in_row row.number) }
{
    fields()[usize::from(row.number)].1
}

/// The order of the names of two rows, which is that of their numbers.
pub(crate) fn compare_rows(a: Row, b: Row) -> Ordering
    ensures { result ≡ slice_cmp nat_cmp (bytes_in_row a.number) (bytes_in_row b.number) }
{
    a.number.cmp(&b.number)
}

// Whether the row there has that name.
fn is_named(rows: &[(&'static str, FieldType)], at: usize, name: &[u8]) -> bool
    ensures named { result ≡ is_some (option_and_then (if_named name.now) (slice_get (map (λ row. (row.0.now, row.1)) rows.now) at)) }
    ensures utf8 { result ≡ true → is_utf8 name.now ≡ true }
{
    match rows.get(at) {
        Some(row) => row.0.as_bytes() == name,
        None => false,
    }
}

/// The row of that name in the table. The names of the table stand in JSON strings as they are.
pub(crate) fn row_of(name: &[u8]) -> Option<Row>
    ensures row { MatchOption result (kind_in field_table name.now ≡ None) (λ row. bytes_in_row row.number ≡ name.now) }
    ensures utf8 { OnSome result (is_utf8 name.now ≡ true) }
{
    let number = ROWS[hash(name)];
    if is_named(fields(), usize::from(number), name) {
        Some(Row { number })
    } else {
        None
    }
}

/// The kind of a field, by the bytes of its name; None exactly where there is no such field. It takes no memory.
#[tactic(auto, unfolding(crate::specs::Field::type_of))]
pub fn type_of_bytes(key: &[u8]) -> Option<FieldType>
    ensures { result ≡ type_of key.now }
{
    match row_of(key) {
        Some(row) => Some(kind_of(row)),
        None if is_extra_name(key) => Some(FieldType::Extra),
        None => None,
    }
}

/// The kind of a field, by its name; None exactly where there is no such field. It takes no memory.
#[tactic(auto, unfolding(crate::specs::Field::type_of))]
pub fn type_of(key: &Text) -> Option<FieldType>
    ensures { result ≡ type_of key.now }
{
    match row_of(key.bytes()) {
        Some(row) => Some(kind_of(row)),
        None if is_extra(key.as_str()) => Some(FieldType::Extra),
        None => None,
    }
}
