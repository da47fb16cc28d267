// Characters, and the words that they make.
ghost use Rattle.std.specs.Prelude.{◌≡◌, drop, eqb, length};
ghost use Rattle.std.specs.List.{list_all, take_while};
ghost use Rattle.operand.specs.Text.{begins, in_word};
ghost use Rattle.operand.specs.Words.{same};
ghost use Rattle.operand.specs.Read.{past_spaces, run, word_at};

// Letters and digits.
#[tactic(auto, unfolding(crate::specs::Text::in_word))]
pub(crate) fn in_word(c: u8) -> bool
    ensures { result ≡ in_word c }
{
    c.is_ascii_uppercase() || c.is_ascii_digit()
}

// The text from here on, nothing past its end.
fn rest(text: &[u8], at: usize) -> &[u8]
    ensures { result.now ≡ drop at text.now }
{
    text.get(at..).unwrap_or(&[])
}

// The bytes of the word that a text starts with.
fn word_length(text: &[u8]) -> usize
    ensures { result ≡ length (take_while in_word text.now) }
{
    text.iter().take_while(|c| in_word(**c)).count()
}

// The word that starts here.
#[tactic(auto, using(crate::proofs::Scans::take_run))]
pub fn word(text: &[u8], at: usize) -> &[u8]
    ensures { result.now ≡ word_at text.now at }
{
    let rest = rest(text, at);
    &rest[..word_length(rest)]
}

// Whether a word goes on here.
fn goes_on(text: &[u8]) -> bool
    ensures { result ≡ begins text.now }
{
    text.first().is_some_and(|c| in_word(*c))
}

fn is_word(name: &[u8]) -> bool
    ensures { result ≡ list_all in_word name.now }
{
    name.iter().all(|c| in_word(*c))
}

fn is_whole(text: &[u8], name: &[u8]) -> bool
    ensures { result ≡ same (run text.now) name.now }
{
    match text.strip_prefix(name) {
        Some(after) => !goes_on(after) && is_word(name),
        None => false,
    }
}

// Whether the word that a text starts with is this one: characters are read up to the first that differs. Most labels differ in their first,
// which is looked at by itself: the rest is a call.
pub(crate) fn is_first(text: &[u8], name: &[u8]) -> bool
    ensures { result ≡ same (run text.now) name.now }
{
    match (text.first(), name.first()) {
        (Some(c), Some(d)) if *c != *d => false,
        _ => is_whole(text, name),
    }
}

// Whether the word that starts here is this one.
pub(crate) fn begins_with(text: &[u8], at: usize, name: &[u8]) -> bool
    ensures { result ≡ same (word_at text.now at) name.now }
{
    is_first(rest(text, at), name)
}

// How many spaces a text starts with.
fn spaces(text: &[u8]) -> usize
    ensures { result ≡ length (take_while (λ c. eqb c 32) text.now) }
{
    text.iter().take_while(|c| **c == b' ').count()
}

// Past the spaces that stand here.
#[tactic(auto, using(crate::proofs::Scans::spaces_are))]
pub(crate) fn skip(text: &[u8], at: usize) -> usize
    ensures { result ≡ past_spaces text.now at }
{
    at + spaces(rest(text, at))
}
