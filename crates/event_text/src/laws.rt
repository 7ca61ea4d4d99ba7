//! Laws of canonical texts. Each is a clause of a function that does nothing.
ghost use Rattle.std.specs.Prelude.{◌≡◌, ◌↔◌, Some};
ghost use Rattle.event_model.specs.declared.message.Message.{Message as AnyMessage};
ghost use Rattle.event_text.specs.Exact.{strict};
ghost use Rattle.event_text.specs.Strict.{IsTextOf};

/// A message is read strictly exactly where the bytes are its canonical text.
pub fn strict_reading_is_exact(bytes: &[u8])
    ensures { (message : AnyMessage) → (strict bytes.now ≡ Some message) ↔ IsTextOf bytes.now message }
{}
