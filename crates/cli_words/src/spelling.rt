//! The spellings of the options, and what each stands for.

ghost use Rattle.std.specs.Prelude.{◌≡◌};
ghost use Rattle.cli_words.specs.Spellings.{has_no_effect, is_word, spelled};

/// What the value of an option is. Maven's command-line options.
#[derive(Clone, Copy)]
pub enum Wanted {
    Workers,
    Profiles,
    Define,
    Projects,
    ResumeFrom,
    Generated,
}

/// What a word that begins with a hyphen stands for by itself. Maven's command-line options.
#[derive(Clone, Copy)]
pub enum Spelling {
    Takes(Wanted),
    AlsoMake,
    AlsoMakeDependents,
    Full,
    NoEffect,
}

fn is_word(word: &str, name: &str) -> bool
    ensures { result ≡ is_word word.now name.now }
{
    word == name
}

/// What a word stands for that is spelled exactly so. Costs the word's length.
#[tactic(auto, unfolding(crate::specs::Spellings::spelled))]
pub(crate) fn spelled(word: &str) -> Option<Spelling>
    ensures { result ≡ spelled word.now }
{
    if is_word(word, "-T") || is_word(word, "--threads") {
        Some(Spelling::Takes(Wanted::Workers))
    } else if is_word(word, "-P") || is_word(word, "--activate-profiles") {
        Some(Spelling::Takes(Wanted::Profiles))
    } else if is_word(word, "-D") {
        Some(Spelling::Takes(Wanted::Define))
    } else if is_word(word, "-pl") || is_word(word, "--projects") {
        Some(Spelling::Takes(Wanted::Projects))
    } else if is_word(word, "-rf") || is_word(word, "--resume-from") {
        Some(Spelling::Takes(Wanted::ResumeFrom))
    } else if is_word(word, "--generated") {
        Some(Spelling::Takes(Wanted::Generated))
    } else if is_word(word, "-am") || is_word(word, "--also-make") {
        Some(Spelling::AlsoMake)
    } else if is_word(word, "-amd") || is_word(word, "--also-make-dependents") {
        Some(Spelling::AlsoMakeDependents)
    } else if is_word(word, "--full") {
        Some(Spelling::Full)
    } else if has_no_effect(word) {
        Some(Spelling::NoEffect)
    } else {
        None
    }
}

// The words that ask for what is done anyway.
fn has_no_effect(word: &str) -> bool
    ensures { result ≡ has_no_effect word.now }
{
    is_word(word, "-fae")
        || is_word(word, "--fail-at-end")
        || is_word(word, "-B")
        || is_word(word, "--batch-mode")
        || is_word(word, "-ntp")
        || is_word(word, "--no-transfer-progress")
}
