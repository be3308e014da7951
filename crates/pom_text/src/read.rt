//! From the bytes of a POM to its elements, or to the first rule that fails and its place.

ghost use Rattle.std.specs.Prelude.{◌≡◌, ◌≤◌, ◌<◌, ◌+◌, ◌*◌, ◌++◌, ℕ, List, length};
ghost use Rattle.std.specs.Str.{chars};
ghost use Rattle.mvn_base.specs.declared.rule.Rule as rules;
ghost use Rattle.mvn_base.specs.Limits.{pom_limit};
ghost use Rattle.pom_text.specs.declared.node.Node as nodes;
ghost use Rattle.pom_text.specs.declared.fault.TextFault.TheVariants.{Refused};
ghost use Rattle.pom_text.specs.Answers.{Agrees, answer, decoded_answer, encoding_answer, reading_answer, text_answer};
ghost use Rattle.pom_text.specs.Encodings.{chosen, decoded};
ghost use Rattle.pom_text.specs.Openings.{named_encoding};
ghost use Rattle.pom_text.specs.Runs.{EndsWith, HasFront, read_len};
ghost use Rattle.pom_text.specs.Running.{outcome_of};
ghost use Rattle.pom_text.specs.Texts.{AreElements, IsAnswered, IsRefusal, IsText, Refuses};

use crate::allowed::allowed_of;
use crate::cuts::is_over;
use crate::declaration::named_encoding;
use crate::encoding::{Encoding, mark_len};
use crate::fault::TextFault;
use crate::front::opening;
use crate::node::PomText;
use crate::reader::{Reading, read_pieces};
use mvn_base::{POM_LIMIT, Rule};
use std::alloc::Global;

// A refusal, at a byte after a mark of so many bytes.
fn refused(rule: Rule, mark: usize, place: usize) -> TextFault
    requires { mark + place < 18446744073709551616 }
    ensures { result ≡ Refused rule (mark + place) }
{
    TextFault::Refused {
        rule,
        place: (mark + place) as u64,
    }
}

// The encoding of bytes, or the first byte of a name that is none's.
fn encoding_of(bytes: &[u8]) -> Result<Encoding, usize>
    ensures { result ≡ chosen (named_encoding bytes.now) }
{
    match named_encoding(bytes) {
        None => Ok(Encoding::Utf8),
        Some((place, name)) => match Encoding::named(name) {
            Some(encoding) => Ok(encoding),
            None => Err(place),
        },
    }
}

// How many bytes of a text are read, by what is not: a rest, and more after it.
fn place_of(encoding: Encoding, text: &str, rest: &str, more: &str) -> usize
    requires { HasFront (chars text.now) (chars rest.now ++ chars more.now) }
    ensures place { result ≡ read_len encoding (chars text.now) (chars rest.now) (chars more.now) }
    ensures within { result ≤ 4 * length text.now }
{
    let unread = rest.len() + more.len();
    let read = text.len() - unread;
    let (front, _) = text.split_at(read);
    encoding.len(front)
}

// What an outcome of the reading says of a text, after which more is not read.
fn placed(
    mark: usize,
    encoding: Encoding,
    text: &str,
    more: &str,
    reading: Reading<'_>,
) -> Result<PomText, TextFault>
    requires mark { mark < 4 }
    requires text { length text.now < 4294967295 }
    requires rest { EndsWith (chars text.now) (chars more.now) (outcome_of reading) }
    ensures { Agrees (reading_answer mark encoding text.now more.now reading.entry) result }
{
    match reading {
        Reading::Whole(nodes) => Ok(PomText { nodes }),
        Reading::Halted(rule, rest) => {
            let place = place_of(encoding, text, rest, more);
            Err(refused(rule, mark, place))
        }
    }
}

// Reads a text whose bytes stand after a mark.
#[tactic(auto, unfolding(crate::specs::Answers::text_answer))]
fn read_characters(
    alloc: Global,
    mark: usize,
    encoding: Encoding,
    text: &str,
) -> Result<PomText, TextFault>
    requires mark { mark < 4 }
    requires text { length text.now < 4294967295 }
    ensures { Agrees (text_answer mark encoding (chars text.now)) result }
{
    let (cut, more) = allowed_of(text);
    match opening(cut) {
        None => Err(refused(Rule::NotPomText, mark, 0)),
        Some(body) => {
            let reading = read_pieces(alloc, body, is_over(more))?;
            placed(mark, encoding, text, more, reading)
        }
    }
}

// Reads bytes after a mark, by an encoding.
fn read_encoded(
    alloc: Global,
    mark: usize,
    encoding: Encoding,
    bytes: &[u8],
) -> Result<PomText, TextFault>
    requires mark { mark < 4 }
    requires bytes { length bytes.now ≤ pom_limit }
    ensures { Agrees (decoded_answer mark encoding (decoded encoding bytes.now)) result }
{
    match encoding.decode(alloc, bytes)? {
        Ok(text) => read_characters(alloc, mark, encoding, text.as_str()),
        Err(place) => Err(refused(Rule::Encoding, mark, place)),
    }
}

// Reads bytes after a mark.
fn read_marked(alloc: Global, mark: usize, bytes: &[u8]) -> Result<PomText, TextFault>
    requires mark { mark < 4 }
    requires bytes { length bytes.now ≤ pom_limit }
    ensures { Agrees (encoding_answer mark bytes.now (chosen (named_encoding bytes.now))) result }
{
    match encoding_of(bytes) {
        Ok(encoding) => read_encoded(alloc, mark, encoding, bytes),
        Err(place) => Err(refused(Rule::Encoding, mark, place)),
    }
}

// Reads bytes.
#[tactic(auto, unfolding(crate::specs::Answers::answer))]
fn read_bytes(alloc: Global, bytes: &[u8]) -> Result<PomText, TextFault>
    ensures { Agrees (answer bytes.now) result }
{
    if bytes.len() as u64 > POM_LIMIT {
        return Err(refused(Rule::TooLarge, 0, POM_LIMIT as usize));
    }
    let mark = mark_len(bytes);
    let (_, body) = bytes.split_at(mark);
    read_marked(alloc, mark, body)
}

/// Reads the bytes of a POM: the elements that they spell, or the rule that they break and the byte at which that
/// shows. The rules are asked one after another: at most `POM_LIMIT` bytes; an encoding that is UTF-8 or the one that
/// the declaration names, of which each byte is; then from the left no `<!DOCTYPE` before the root, no element in 64
/// others, and at last the grammar of XML 1.0 without DTDs, where the place is the end of the longest list of whole
/// pieces each of which may stand. A byte order mark of UTF-8 is skipped, and counts in places. One pass for the
/// encoding and one for the elements; time and memory are linear in the bytes. The texts of the elements share one copy
/// of the POM's text, which lives as long as one of them or of their copies. XML 1.0; the limits are project rules.
pub fn read_text(alloc: Global, bytes: &[u8]) -> Result<PomText, TextFault>
    ensures answer { Agrees (answer bytes.now) result }
    ensures right { IsAnswered bytes.now result }
    ensures elements { (nodes : List nodes.Node) → IsText bytes.now nodes →
        AreElements nodes result }
    ensures refusal { (rule : rules.Rule) (place : ℕ) → Refuses bytes.now rule place →
        IsRefusal rule place result }
{
    read_bytes(alloc, bytes)
}
