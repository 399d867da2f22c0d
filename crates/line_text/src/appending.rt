//! Appending to a text. If memory is refused, the text is unchanged.
ghost use Rattle.std.specs.Prelude.{◌≡◌, ◌++◌, ◌∷◌, [], OnErr, OnOk, decimal};
ghost use Rattle.hex.specs.Hex.{encode_lower};
ghost use Rattle.line_text.specs.Named.{named};

use itoa::Buffer;
use std::alloc::AllocError;

/// Appends a number in decimal.
pub fn push_number(out: &mut Vec<u8>, number: u64) -> Result<(), AllocError>
    ensures ok { OnOk result (out.new.items ≡ out.old.items ++ decimal number) }
    ensures err { OnErr result (out.new.items ≡ out.old.items) }
{
    let mut buffer = Buffer::new();
    out.extend_from_slice(buffer.format(number).as_bytes())
}

/// Appends a text.
pub fn push_text(out: &mut Vec<u8>, text: &str) -> Result<(), AllocError>
    ensures ok { OnOk result (out.new.items ≡ out.old.items ++ text.now) }
    ensures err { OnErr result (out.new.items ≡ out.old.items) }
{
    out.extend_from_slice(text.as_bytes())
}

/// Appends a name, and then a number in decimal.
#[tactic(auto, unfolding(crate::specs::Named::named))]
pub fn push_named(out: &mut Vec<u8>, name: &str, number: u64) -> Result<(), AllocError>
    ensures ok { OnOk result (out.new.items ≡ out.old.items ++ named name.now number) }
    ensures err { OnErr result (out.new.items ≡ out.old.items) }
{
    let before = out.len();
    push_text(out, name)?;
    let pushed = push_number(out, number);
    if pushed.is_err() {
        out.truncate(before);
    }
    pushed
}

/// Appends a byte in two lower-case hexadecimal digits.
pub fn push_hex(out: &mut Vec<u8>, byte: u8) -> Result<(), AllocError>
    ensures ok { OnOk result (out.new.items ≡ out.old.items ++ encode_lower (byte ∷ [])) }
    ensures err { OnErr result (out.new.items ≡ out.old.items) }
{
    let mut digits = [0; 2];
    let _ = hex::encode_to_slice([byte].as_slice(), &mut digits);
    out.extend_from_slice(&digits)
}
