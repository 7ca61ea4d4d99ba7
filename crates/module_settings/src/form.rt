/// The words that a parameter may be.
#[derive(Clone, Copy, Debug, PartialEq, Eq)]
pub enum Words {
    /// `pass` and `stop`.
    Procedure,
    /// `allow`, `whitelist`, `deny` and `blacklist`.
    Filter,
    /// `object`, `array` and `lines`.
    Style,
    /// `timestamp`.
    TimeFormat,
}

/// What a parameter may be.
#[derive(Clone, Copy, Debug, PartialEq, Eq)]
pub enum Form {
    /// A whole number from `least` to `most`.
    Number { least: u64, most: u64 },
    /// One of these words.
    Word(Words),
    Flag,
    /// The name of a file: a text of 1 to 255 bytes.
    FileName,
    /// A text that isn't empty without the blanks at its ends.
    Stripped,
    /// A list of texts, or one text with commas between them.
    Texts,
    /// A text of one ASCII byte that is no quotation mark and ends no line.
    Byte,
    /// An object of fields, with no kind of message.
    FieldObject,
}
