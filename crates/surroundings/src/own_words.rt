// The words that the program answers itself.
ghost use Rattle.std.specs.Prelude.{◌≡◌, codes};
ghost use Rattle.surroundings.specs.Words.{is_only_word};

use mvn_shared::Bytes;

// Whether there is one word, and it is one of the two.
fn is_only_word(words: &[Bytes], short: &[u8], long: &[u8]) -> bool
    ensures { result ≡ is_only_word words.now short.now long.now }
{
    match words {
        [word] => word.as_slice() == short || word.as_slice() == long,
        _ => false,
    }
}

/// Whether the one word asks for help.
pub fn asks_for_help(words: &[Bytes]) -> bool
    ensures { result ≡ is_only_word words.now (codes "-h") (codes "--help") }
{
    is_only_word(words, b"-h", b"--help")
}

/// Whether the one word asks for the version.
pub fn asks_for_version(words: &[Bytes]) -> bool
    ensures { result ≡ is_only_word words.now (codes "-v") (codes "--version") }
{
    is_only_word(words, b"-v", b"--version")
}
