// How an answer is spelled.
ghost use Rattle.std.specs.Prelude.{◌≡◌, ◌++◌, ◌<◌, IfOk, OnOk};
ghost use Rattle.std.specs.String.{string_bytes};
ghost use Rattle.row_fields.specs.Spelling.{escaped, escaped_byte, hex, is_plain};

use mvn_shared::Mem;
use std::alloc::Global;

// The hexadecimal digit of a value.
fn hex(value: u8) -> u8
    requires { value < 16 }
    ensures { result ≡ hex value }
{
    if value < 10 { 48 + value } else { 87 + value }
}

// Whether a byte stands for itself.
fn is_plain(b: u8) -> bool
    ensures { result ≡ is_plain b }
{
    b > 31 && b < 127 && b != b'\\'
}

fn push_byte(out: &mut String, b: u8) -> Mem<()>
    ensures { OnOk result (string_bytes out.new ≡ string_bytes out.old ++ escaped_byte b) }
{
    if is_plain(b) {
        out.push(char::from(b))?;
        return Ok(());
    }
    out.push_str("\\x")?;
    out.push(char::from(hex(b / 16)))?;
    out.push(char::from(hex(b % 16)))?;
    Ok(())
}

/// An answer in printed bytes of ASCII: all others, and a backslash, as `\xNN`. Costs the answer. Project rule.
#[tactic(auto, unfolding(crate::specs::Spelling::escaped))]
pub fn escaped(alloc: Global, answer: &[u8]) -> Mem<String>
    ensures { IfOk result (λ shown. string_bytes shown ≡ escaped answer.now) }
{
    let mut out = String::new(alloc);
    for b in answer {
        push_byte(&mut out, *b)?;
    }
    Ok(out)
}
