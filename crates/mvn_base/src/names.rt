//! Which texts may name a group, an artifact or a version. POM Reference, "Maven Coordinates".

ghost use Rattle.std.specs.Prelude.{◌≡◌, ◌==◌};
ghost use Rattle.std.specs.List.{list_all, list_any, slice_split};
ghost use Rattle.mvn_base.specs.Names.{is_name_byte, is_name, is_group, is_dot, is_filled, is_version_byte, is_version, has_expression};

// One of the bytes of a name: an ASCII letter or digit, `_`, `-` or `.`.
#[tactic(auto, unfolding(crate::specs::Names::is_name_byte))]
fn is_name_byte(b: u8) -> bool
    ensures { result ≡ is_name_byte b }
{
    b.is_ascii_alphanumeric() || b == b'_' || b == b'-' || b == b'.'
}

fn has_name_bytes(text: &[u8]) -> bool
    ensures { result ≡ list_all is_name_byte text.now }
{
    text.iter().all(|b| is_name_byte(*b))
}

/// Whether a text may name an artifact or a classifier: it isn't empty, has only ASCII letters, digits, `_`, `-`
/// and `.`, and isn't `.` or `..`, so that it is one step of a path. One pass, no memory.
#[tactic(auto, unfolding(crate::specs::Names::is_name))]
pub fn valid_name(bytes: &[u8]) -> bool
    ensures { result ≡ is_name bytes.now }
{
    match bytes {
        [] | b"." | b".." => false,
        _ => has_name_bytes(bytes),
    }
}

fn has_no_empty_part(text: &[u8]) -> bool
    ensures { result ≡ list_all is_filled (slice_split is_dot text.now) }
{
    text.split(|b| *b == b'.').all(|part| !part.is_empty())
}

/// Whether a text may name a group: it is a name, and no part between its dots is empty. One pass, no memory.
#[tactic(auto, unfolding(crate::specs::Names::is_group))]
pub fn valid_group(bytes: &[u8]) -> bool
    ensures { result ≡ is_group bytes.now }
{
    valid_name(bytes) && has_no_empty_part(bytes)
}

// Whether a byte is one of these.
fn is_among(bytes: &[u8], b: u8) -> bool
    ensures { result ≡ list_any (λ c. c == b) bytes.now }
{
    bytes.contains(&b)
}

// One of the bytes of a version: above 0x20, and none that a path, a range or an expression uses.
#[tactic(auto, unfolding(crate::specs::Names::is_version_byte))]
fn is_version_byte(b: u8) -> bool
    ensures { result ≡ is_version_byte b }
{
    b > 0x20 && !is_among(b"\\/:\"<>|?*[](),", b)
}

fn has_version_bytes(text: &[u8]) -> bool
    ensures { result ≡ list_all is_version_byte text.now }
{
    text.iter().all(|b| is_version_byte(*b))
}

// Whether `${` stands somewhere.
fn has_expression(text: &[u8]) -> bool
    ensures { result ≡ has_expression text.now }
{
    let mut after_dollar = false;
    for b in text {
        if after_dollar && *b == b'{' {
            return true;
        }
        after_dollar = *b == b'$';
    }
    false
}

/// Whether a text may be a version: it isn't empty, isn't `.` or `..`, has no byte up to 0x20, none of
/// `\ / : " < > | ? * [ ] ( ) ,`, and no `${`. Two passes, no memory.
#[tactic(auto, unfolding(crate::specs::Names::is_version))]
pub fn valid_version(bytes: &[u8]) -> bool
    ensures { result ≡ is_version bytes.now }
{
    match bytes {
        [] | b"." | b".." => false,
        _ => has_version_bytes(bytes) && !has_expression(bytes),
    }
}
