// The labels of a text: where the word of each stands, in the order of the lines that define them, and its address.
ghost use Rattle.std.specs.Prelude.{◌≡◌, ◌<◌, IfSome};
ghost use Rattle.std.specs.List.{position_from};
ghost use Rattle.operand.specs.Words.{same};
ghost use Rattle.operand.specs.Read.{address_in, names_of, word_at};

use crate::characters::{begins_with, word};

// Labels that may be looked up; one past the end of `addresses` has 0. No slice of pairs: a pass writes the addresses while it reads the
// starts. No invariant bounds the text: `operand`, which docs/DECISIONS.md names, takes any, and gives None for one that is too long.
#[derive(Clone, Copy)]
pub struct Labels<'a> {
    pub text: &'a [u8],
    pub starts: &'a [u16],
    pub addresses: &'a [u16],
}

// The place of a word among labels. Of a label one character more is read than the word has, at most: a long one costs no more than a short one.
pub fn find(text: &[u8], starts: &[u16], name: &[u8]) -> Option<usize>
    ensures { result ≡ position_from (λ start. same (word_at text.now start) name.now) 0 starts.now }
{
    starts
        .iter()
        .position(|start| begins_with(text, *start as usize, name))
}

// The address of the label whose word stands here.
pub(crate) fn address(labels: Labels, at: usize) -> Option<u16>
    ensures value { result ≡ address_in (names_of labels.entry.text.now labels.entry.starts.now)
        labels.entry.addresses.now (word_at labels.entry.text.now at) }
    ensures small { IfSome result (λ n. n < 65536) }
{
    let k = find(labels.text, labels.starts, word(labels.text, at))?;
    Some(labels.addresses.get(k).copied().unwrap_or(0))
}
