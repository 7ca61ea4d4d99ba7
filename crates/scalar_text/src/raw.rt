ghost use Rattle.std.specs.Prelude.{◌≡◌, Some, IfOk};
ghost use Rattle.base_types.specs.Scalar.{IsReadAs};
ghost use Rattle.scalar_text.specs.Raw.{raw_of, raw_text};

use base_types::{Blob, OutOfMemory, ScalarFault, Text};
use base64::DecodeAllocError;
use base64::engine::general_purpose::STANDARD;
use std::alloc::Global;

/// The bytes that a text writes in base64, with padding (RFC 4648, section 4). There is one text for each.
pub fn read_raw(alloc: Global, text: &[u8]) -> Result<Blob, ScalarFault>
    ensures value { IsReadAs (raw_of text.now) result }
    ensures one { IfOk result (λ bytes. text.now ≡ raw_text bytes) }
{
    match STANDARD.decode(alloc, text) {
        Ok(bytes) => Ok(Blob::from(bytes)),
        Err(DecodeAllocError::DecodeError(_)) => Err(ScalarFault::Bad),
        Err(DecodeAllocError::OutOfMemory) => Err(ScalarFault::OutOfMemory),
    }
}

/// The base64 of bytes, with padding (RFC 4648, section 4). Read again, it gives them.
pub fn write_raw(alloc: Global, bytes: &[u8]) -> Result<Text, OutOfMemory>
    ensures text { IfOk result (λ text. text ≡ raw_text bytes.now) }
    ensures back { IfOk result (λ text. raw_of text ≡ Some bytes.now) }
{
    Ok(Text::from(STANDARD.encode(alloc, bytes)?))
}
