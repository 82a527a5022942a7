// Names by where they stand in the text.
ghost use Rattle.std.specs.Prelude.{◌≡◌, ◌<◌, ◌≤◌, length, MatchResult};
ghost use Rattle.std.specs.List.{find};
ghost use Rattle.book_text.specs.declared.fault.WordFault.TheVariants.{Long};
ghost use Rattle.book_text.specs.Parsers.{part_in};
ghost use Rattle.book_text.specs.Names.{is_named, Adds};

use crate::fault::{BookFault, WordFault};
use crate::parser::{Label, MOST_LETTERS, Span};
use arrayvec::ArrayVec;

// The bytes of a name.
pub(crate) fn part(text: &[u8], span: Span) -> &[u8]
    ensures { result.now ≡ part_in text.now span }
{
    let all = text.len();
    let at = span.at.min(all);
    let size = span.size.min(all - at);
    let end = at + size;
    &text[at..end]
}

fn is_named(text: &[u8], label: Label, name: &[u8]) -> bool
    ensures { result ≡ is_named text.now name.now label }
{
    name == part(text, label.name)
}

// The first of the labels that has this name.
pub(crate) fn find(text: &[u8], labels: &[Label], name: &[u8]) -> Option<Label>
    ensures { result ≡ find (is_named text.now name.now) labels.now }
{
    labels
        .iter()
        .copied()
        .find(|label| is_named(text, *label, name))
}

pub(crate) fn no_longer(name: &[u8], at: usize) -> Result<(), WordFault>
    ensures { MatchResult result (λ _. length name.now ≤ 16) (λ f. (16 < length name.now) × (f ≡ Long at)) }
{
    if name.len() > MOST_LETTERS {
        Err(WordFault::Long(at))
    } else {
        Ok(())
    }
}

// One more label with this name, which stands at an offset: it is no longer than it may be, new, and there is room.
pub(crate) fn add<const N: usize>(
    labels: &mut ArrayVec<Label, N>,
    text: &[u8],
    name: &[u8],
    at: usize,
) -> Result<(), BookFault>
    ensures { Adds N text.now name.now at labels.old labels.new result }
{
    no_longer(name, at)?;
    if find(text, labels.as_slice(), name).is_some() {
        return Err(BookFault::GivenBefore(at));
    }
    let size = name.len();
    let label = Label {
        name: Span { at, size },
        place: 0,
    };
    labels.try_push(label).map_err(|_| BookFault::TooMany(at))
}
