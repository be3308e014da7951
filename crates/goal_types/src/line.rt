//! The first line of bytes, and what follows it.

ghost use Rattle.std.specs.Prelude.{◌≡◌, ◌≤◌, length};
ghost use Rattle.std.specs.List.{prefix_len};
ghost use Rattle.std.specs.Option.{option_map};
ghost use Rattle.goal_types.specs.Lines.{is_in_line, line_of, split_line, parts};

// How many bytes stand before the first line feed.
fn line_len(bytes: &[u8]) -> usize
    ensures within { result ≤ length bytes.now }
    ensures len { result ≡ prefix_len is_in_line bytes.now }
{
    for (i, b) in bytes.iter().enumerate() {
        if *b == b'\n' {
            return i;
        }
    }
    bytes.len()
}

/// The bytes before the first line feed; all where there is none. Costs one pass over them, no memory.
pub fn line_of(bytes: &[u8]) -> &[u8]
    ensures { result.now ≡ line_of bytes.now }
{
    &bytes[..line_len(bytes)]
}

/// The bytes before the first line feed, and those after it; none where there is no line feed. Costs one pass over the
/// line, no memory.
pub fn split_line(bytes: &[u8]) -> Option<(&[u8], &[u8])>
    ensures { option_map parts result ≡ split_line bytes.now }
{
    let len = line_len(bytes);
    if len < bytes.len() {
        Some((&bytes[..len], &bytes[len + 1..]))
    } else {
        None
    }
}
