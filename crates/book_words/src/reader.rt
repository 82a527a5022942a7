// The word reader: it cuts a text into words, and refuses none of them.
ghost use Rattle.std.specs.Prelude.{◌≡◌, ℕ, ◌+◌, ◌≤◌, Bool, length, drop};
ghost use Rattle.std.specs.Char.{is_ascii_alphanumeric};
ghost use Rattle.std.specs.List.{prefix_len};
ghost use Rattle.book_words.specs.Words.{blank, same, run_kind, mark_kind, port_up_to, port_of, ported};
ghost use Rattle.book_words.specs.Shown.{kind_of, Spells, NoName, Tells, Cuts};

use crate::word::{Found, Word};
use action::opposite;

// The ports are 1 to this.
const LAST_PORT: u16 = action::LAST_PORT as u16;

fn is_blank(b: u8) -> bool
    ensures { result ≡ blank b }
{
    matches!(b, b' ' | b'\n')
}

// A letter or a digit. By ranges: they tell most marks by one comparison.
fn is_alnum(b: u8) -> bool
    ensures { result ≡ is_ascii_alphanumeric b }
{
    matches!(b, b'0'..=b'9' | b'A'..=b'Z' | b'a'..=b'z')
}

// A byte that is a word of its own.
fn mark<'a>(b: u8) -> Word<'a>
    ensures kind { kind_of result ≡ mark_kind b }
    ensures plain { NoName result }
{
    match b {
        b'.' => Word::Dot,
        b'+' => Word::Plus,
        b'=' => Word::Equals,
        b';' => Word::Ends,
        b'(' => Word::Opens,
        b')' => Word::Closes,
        b'{' => Word::Enter,
        b'}' => Word::Leave,
        _ => Word::Alien,
    }
}

// What stands from an offset on.
fn behind(text: &[u8], from: usize) -> &[u8]
    ensures { result.now ≡ drop from text.now }
{
    text.get(from..).unwrap_or(&[])
}

// The end of the longest run that begins at `from` of bytes that pass a test.
fn run_end<F: FnMut(&u8) -> bool>(text: &[u8], from: usize, passes: F) -> usize
    requires { (f : _) (b : _) → F.pre f b }
    ensures end { (test : ℕ → Bool) → Tells F.FnMut passes test → result ≡ from + prefix_len test (drop from text.now) }
    ensures behind { from ≤ result }
    ensures within { from ≤ length text.now → result ≤ length text.now }
{
    from + behind(text, from)
        .iter()
        .copied()
        .take_while(passes)
        .count()
}

// Whether two texts are the same. It is kept for callers outside: the repository itself writes `==`.
pub fn same_bytes(a: &[u8], b: &[u8]) -> bool
    ensures { result ≡ same a.now b.now }
{
    a == b
}

// A run of letters and digits.
fn run_word<'a>(run: &'a [u8]) -> Word<'a>
    ensures kind { kind_of result ≡ run_kind run.now }
    ensures spells { Spells run.now result }
{
    match run {
        [b'A'..=b'Z', ..] => Word::Name(run),
        b"module" => Word::Module,
        b"0" => Word::Nil,
        b"w" => Word::Wait,
        b"i" => Word::Act(0),
        _ => Word::Other,
    }
}

// A number as the action that receives on that port, if it is a port.
fn port_up_to(number: u16) -> Option<i8>
    ensures { result ≡ port_up_to number }
{
    match number {
        1..=LAST_PORT => Some(number as i8),
        _ => None,
    }
}

// The action that receives on the port that digits name. They name one if they are one or two, with no zero in front.
fn port(digits: &[u8]) -> Option<i8>
    ensures { result ≡ port_of digits.now }
{
    match digits {
        [ones] => port_up_to(ones.saturating_sub(b'0') as u16),
        [b'0', _] => None,
        [tens, ones] => {
            let tens = tens.saturating_sub(b'0') as u16;
            let ones = ones.saturating_sub(b'0') as u16;
            port_up_to(tens * 10 + ones)
        }
        _ => None,
    }
}

// A `?` or `!` whose port makes this action, if it has one.
fn act<'a>(action: Option<i8>) -> Word<'a>
    ensures kind { kind_of result ≡ ported action }
    ensures plain { NoName result }
{
    match action {
        Some(action) => Word::Act(action),
        None => Word::Bad,
    }
}

// The first word at or behind an offset: a longest run of letters and digits, a `?` or `!` with its digits, or another byte
// but space and newline. A byte outside the alphabet is a word too, and so is a `?` with no port: whether a word may stand is
// not asked here. Inlined, so that no word is written out only to be read back.
#[inline(always)]
pub fn next_word<'a>(text: &'a [u8], from: usize) -> Option<Found<'a>>
    ensures { Cuts text.now from result }
{
    let at = run_end(text, from, |b| is_blank(*b));
    let b = *text.get(at)?;
    // Letters and digits first: one table then tells `?`, `!` and the marks.
    match b {
        _ if is_alnum(b) => {
            let end = run_end(text, at + 1, |b| b.is_ascii_alphanumeric());
            let word = run_word(&text[at..end]);
            Some(Found { at, end, word })
        }
        b'?' => {
            let end = run_end(text, at + 1, |b| b.is_ascii_digit());
            let word = act(port(&text[at + 1..end]));
            Some(Found { at, end, word })
        }
        b'!' => {
            let end = run_end(text, at + 1, |b| b.is_ascii_digit());
            let word = act(port(&text[at + 1..end]).and_then(|action| opposite(action)));
            Some(Found { at, end, word })
        }
        _ => Some(Found {
            at,
            end: at + 1,
            word: mark(b),
        }),
    }
}
