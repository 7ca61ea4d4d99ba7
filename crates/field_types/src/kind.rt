/// The kinds of fields.
#[derive(Clone, Copy, Debug, PartialEq, Eq)]
pub enum FieldType {
    /// Text that isn't empty.
    Text,
    /// Text whose ASCII letters are in lower case.
    Lower,
    /// Text whose ASCII letters are in upper case.
    Upper,
    /// A country's code: two ASCII letters or digits, in upper case.
    Cc,
    /// A decimal number, in millionths.
    Decimal,
    /// A decimal number from 0 to 100.
    Accuracy,
    /// A whole number of at most 18 digits.
    Whole,
    /// The number of an autonomous system.
    Asn,
    /// A port of TCP or UDP.
    Port,
    /// A flag.
    Flag,
    /// An address of IPv4 or IPv6.
    Ip,
    /// A network: an address and the length of its prefix.
    Network,
    /// A domain name.
    Fqdn,
    /// A URL with a host.
    Url,
    /// A time in UTC.
    DateTime,
    /// Bytes in base64.
    Raw,
    /// A mark of the Traffic Light Protocol.
    Tlp,
    /// A regional Internet registry.
    Registry,
    /// A type of incidents.
    Class,
    /// A taxonomy of incidents.
    Taxonomy,
    /// Further data of any kind: a text, a number, a flag, or a list of these.
    Extra,
}
