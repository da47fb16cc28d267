// The lines of a text: where each starts, and its number.
ghost use Rattle.std.specs.Prelude.{◌≡◌, not, ◌+◌, ◌*◌, ◌<◌, ◌≤◌, eqb, length, None};
ghost use Rattle.std.specs.List.{take_while};
ghost use Rattle.std.specs.Option.{ForSome};
ghost use Rattle.assembler.specs.Passing.{following, line_end};

// Where a line starts, and its number, from 1.
#[derive(Clone, Copy)]
pub struct Place {
    pub at: usize,
    pub number: u32,
}

// How many bytes stand before the first LF.
fn line_length(text: &[u8]) -> usize
    ensures { result ≡ length (take_while (λ c. not (eqb c 10)) text.now) }
{
    text.iter().take_while(|c| **c != b'\n').count()
}

// Where the line that starts here ends.
fn line_end(text: &[u8], at: usize) -> usize
    requires { at ≤ length text.now }
    ensures { result ≡ line_end text.now at }
{
    at + line_length(&text[at..])
}

// The places of the lines that are left, of a text that is not too long. What is kept is the last one given, so that the end of a line is looked
// for when the next one is wanted: a line that is refused is not read to its end.
#[derive(Clone, Copy)]
pub(crate) struct Places<'a> {
    text: &'a [u8],
    last: Option<Place>,
    ghost short: { length text.now ≤ 65535 },
    ghost inside: { ForSome last (λ p. (p.at ≤ length text.now) × (p.number ≤ p.at + 1)) },
}

impl<'a> Places<'a> {
    pub(crate) fn new(text: &'a [u8]) -> Self
        requires { length text.now ≤ 65535 }
        ensures { (result.text.now ≡ text.now) × (result.last ≡ None) }
    {
        Places { text, last: None }
    }
}

// The line after one that ends in LF.
fn following(text: &[u8], last: Place) -> Option<Place>
    requires { (length text.now ≤ 65535) × (last.at ≤ length text.now) × (last.number ≤ last.at + 1) }
    ensures { result ≡ following text.now last }
{
    let end = line_end(text, last.at);
    if end < text.len() {
        Some(Place {
            at: end + 1,
            number: last.number + 1,
        })
    } else {
        None
    }
}

impl<'a> Iterator for Places<'a> {
    ghost use Rattle.std.specs.Iterator.{at_most};
    ghost use Rattle.assembler.specs.Places.{Steps, coming, left};

    type Item = Place;

    ghost next_gives = { Steps };

    ghost remaining = { λ places. at_most (left places.text.now (coming places.text.now places.last)) };

    fn next(&mut self) -> Option<Place> {
        let place = match self.last {
            Some(last) => following(self.text, last)?,
            None => Place { at: 0, number: 1 },
        };
        self.last = Some(place);
        Some(place)
    }
}
