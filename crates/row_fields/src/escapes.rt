// How a field is spelled.
ghost use Rattle.std.specs.Prelude.{◌≡◌, ◌++◌, ◌+◌, ◌-◌, ◌*◌, min, nat_eq, map, flat_map, IfOk, OnOk};
ghost use Rattle.std.specs.List.{repeat, slice_split};
ghost use Rattle.row_fields.specs.Spelling.{byte_of, bytes_of, digit, marked, number, repeated, spelled, unescaped, with_byte};

use mvn_shared::{Bytes, Mem};
use std::alloc::{AllocError, Global};

// The value of a hexadecimal digit.
fn digit(b: u8) -> u8
    ensures { result ≡ digit b }
{
    if b < b'a' {
        b.saturating_sub(b'0')
    } else {
        b - 87
    }
}

// The byte that two hexadecimal digits spell.
fn byte_of(high: u8, low: u8) -> u8
    ensures { result ≡ byte_of high low }
{
    let value = u32::from(digit(high)) * 16 + u32::from(digit(low));
    (value % 256) as u8
}

// A number with one digit more.
fn with_digit(number: u32, b: u8) -> u32
    ensures { result ≡ min (number * 10 + (b - 48)) 4294967295 }
{
    let digit = u32::from(b.saturating_sub(b'0'));
    number.saturating_mul(10).saturating_add(digit)
}

// The number that decimal digits spell.
fn number(digits: &[u8]) -> u32
    ensures { result ≡ number digits.now }
{
    let mut number = 0u32;
    for b in digits {
        number = with_digit(number, *b);
    }
    number
}

// A text so many times.
fn push_times(alloc: Global, out: &mut Vec<u8>, times: u32, text: &str) -> Mem<()>
    ensures { OnOk result (out.new.items ≡ out.old.items ++ repeat times text.now) }
{
    let repeated = text.repeat(alloc, times as usize)?;
    out.extend_from_slice(repeated.as_bytes())?;
    Ok(())
}

// A number, a bracket and a text.
fn push_repeated(alloc: Global, out: &mut Vec<u8>, piece: &str) -> Mem<()>
    ensures { OnOk result (out.new.items ≡ out.old.items ++ repeated piece.now) }
{
    match piece.split_once(')') {
        Some((times, text)) => push_times(alloc, out, number(times.as_bytes()), text),
        None => Ok(()),
    }
}

// Two hexadecimal digits and a text.
fn push_with_byte(out: &mut Vec<u8>, piece: &[u8]) -> Mem<()>
    ensures { OnOk result (out.new.items ≡ out.old.items ++ with_byte piece.now) }
{
    match piece {
        [] => {}
        [b] => out.push(*b)?,
        [high, low, rest @ ..] => {
            out.push(byte_of(*high, *low))?;
            out.extend_from_slice(rest)?;
        }
    }
    Ok(())
}

// A mark and a text.
fn push_marked(out: &mut Vec<u8>, piece: &[u8]) -> Mem<()>
    ensures { OnOk result (out.new.items ≡ out.old.items ++ marked piece.now) }
{
    match piece {
        [] => Ok(()),
        [b'x', rest @ ..] => push_with_byte(out, rest),
        [_, rest @ ..] => Ok(out.extend_from_slice(rest)?),
    }
}

// What stands after a backslash, up to the next one.
fn push_spelled(alloc: Global, out: &mut Vec<u8>, piece: &str) -> Mem<()>
    ensures { OnOk result (out.new.items ≡ out.old.items ++ spelled piece.now) }
{
    match piece.strip_prefix('(') {
        Some(repeated) => push_repeated(alloc, out, repeated),
        None => push_marked(out, piece.as_bytes()),
    }
}

// The parts of a field between backslashes.
fn by_backslash<'a>(alloc: Global, field: &'a str) -> Result<Vec<&'a str>, AllocError>
    ensures { IfOk result (λ parts.
        map (λ x. x.now) parts.items ≡ slice_split (λ b. nat_eq b 92) field.now) }
{
    field.split('\\').collect(alloc)
}

// What stands after each backslash.
fn push_pieces(alloc: Global, out: &mut Vec<u8>, pieces: &[&str]) -> Mem<()>
    ensures { OnOk result
        (out.new.items ≡ out.old.items ++ flat_map spelled (map (λ x. x.now) pieces.now)) }
{
    for piece in pieces {
        push_spelled(alloc, out, *piece)?;
    }
    Ok(())
}

// The bytes that parts between backslashes spell.
fn bytes_of(alloc: Global, parts: &[&str]) -> Mem<Bytes>
    ensures { IfOk result (λ bytes. bytes ≡ bytes_of (map (λ x. x.now) parts.now)) }
{
    let mut out = Vec::new(alloc);
    if let [plain, pieces @ ..] = parts {
        out.extend_from_slice(plain.as_bytes())?;
        push_pieces(alloc, &mut out, pieces)?;
    }
    Ok(Bytes::of(out))
}

/// The bytes of a field: `\xNN` is a byte by its hexadecimal digits, `\(N)TEXT` the text up to the next backslash N times, and `\`
/// with another byte nothing, as in `\.`. Costs the field and what is repeated. Project rule.
#[tactic(auto, unfolding(crate::specs::Spelling::unescaped))]
pub fn unescaped(alloc: Global, field: &str) -> Mem<Bytes>
    ensures { IfOk result (λ bytes. bytes ≡ unescaped field.now) }
{
    bytes_of(alloc, by_backslash(alloc, field)?.as_slice())
}
