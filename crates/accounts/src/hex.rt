//! Bytes behind a text.
ghost use Rattle.std.specs.Prelude.{◌≡◌, ◌++◌, string_bytes, OnOk};
ghost use Rattle.tokens.specs.Bytes.{shown_bytes};

use std::alloc::AllocError;
use tokens::write_byte;

/// Writes two hex digits for each byte behind the text, or `-` for no bytes.
pub(crate) fn write_bytes(text: &mut String, bytes: &[u8]) -> Result<(), AllocError>
    ensures { OnOk result (string_bytes text.new ≡ string_bytes text.old ++ shown_bytes bytes.now) }
{
    if bytes.is_empty() {
        return text.push('-');
    }
    for byte in bytes {
        write_byte(text, *byte)?;
    }
    Ok(())
}
