// One line: its label, its form and its operand.
ghost use Rattle.std.specs.Prelude.{◌≡◌, ◌≤◌, ◌<◌, length, is_some, unwrap_or, IfSome};
ghost use Rattle.operand.specs.Read.{names_of, tokens_at};
ghost use Rattle.assembler.specs.Statement.{statement};
ghost use Rattle.assembler.specs.Shapes.{leading};
ghost use Rattle.assembler.specs.Read.{Headed, Labelling, Operanded, Shows, bodied, label_at, parts};

use crate::forms::{ORG, digits_of, form_of, shape_of};
use operand::labels::Labels;
use operand::operands::{Value, operand};
use operand::tokens::{Kind, token};

// The words and signs of the longest form before its operand.
const LONGEST: u8 = 6;

// What a line without an operand counts.
const NOTHING: Value = Value {
    missing: false,
    plus: 0,
    minus: 0,
};

// A line that can be read: its form, none where it is blank, where its label's word stands if it has one, and what its operand counts.
#[derive(Clone, Copy)]
pub struct Line {
    pub form: Option<usize>,
    pub label: Option<usize>,
    pub value: Value,
}

// Where the word of a label stands that has its colon, if one stands here, and what follows.
#[derive(Clone, Copy)]
struct Label {
    start: Option<usize>,
    next: usize,
}

fn labelling(text: &[u8], at: usize) -> Label
    requires { at ≤ length text.now }
    ensures { Labelling text.now (tokens_at text.now at) result }
{
    let word = token(text, at);
    let Kind::Label = word.kind else {
        return Label {
            start: None,
            next: at,
        };
    };
    let colon = token(text, word.next);
    let Kind::Sign(b':') = colon.kind else {
        return Label {
            start: None,
            next: at,
        };
    };
    Label {
        start: Some(word.start),
        next: colon.next,
    }
}

// The number of a token that stands before an operand: a fixed word, a comma or a bracket.
fn leading(kind: Kind) -> Option<u64>
    ensures number { result ≡ leading kind }
    ensures small { IfSome result (λ n. n < 512) }
{
    match kind {
        Kind::Fixed(k) => Some(128 + k as u64),
        Kind::Sign(c) => match c {
            b',' | b'[' | b']' => Some(c as u64),
            _ => None,
        },
        _ => None,
    }
}

// The tokens before an operand as one number, if they are few enough for a form, and what follows them.
#[derive(Clone, Copy)]
struct Head {
    key: Option<u64>,
    next: usize,
}

fn heading(text: &[u8], at: usize) -> Head
    requires { at ≤ length text.now }
    ensures { Headed text.now (tokens_at text.now at) result }
{
    let mut key = 0u64;
    let mut count: u8 = 0;
    let mut i = at;
    // A loop and no iterator: each token says where the next starts.
    loop {
        let t = token(text, i);
        let Some(number) = leading(t.kind) else {
            return Head {
                key: Some(key),
                next: i,
            };
        };
        if count == LONGEST {
            return Head { key: None, next: i };
        }
        key = number + 256 * key;
        count += 1;
        i = t.next;
    }
}

// A line with an operand, which goes on to its end.
fn with_operand(labels: Labels, label: Option<usize>, form: usize, at: usize) -> Option<Line>
    requires { length labels.text.now ≤ 65535 }
    ensures { Operanded (names_of labels.entry.text.now labels.entry.starts.now) labels.entry.addresses.now
        (tokens_at labels.entry.text.now at) form label (parts result) }
{
    let value = operand(labels, at)?;
    Some(Line {
        form: Some(form),
        label,
        value,
    })
}

// What follows the label, by the number of its form.
fn body(
    labels: Labels,
    above: &[u16],
    label: Option<usize>,
    form: Option<usize>,
    at: usize,
) -> Option<Line>
    requires texts { (at ≤ length labels.text.now) × (length labels.text.now ≤ 65535) × (unwrap_or label 0 ≤ length labels.text.now) }
    requires forms { IfSome form (λ k. k < 97) }
    ensures { Shows labels.entry.text.now (names_of labels.entry.text.now above.now)
        (names_of labels.entry.text.now labels.entry.starts.now) labels.entry.addresses.now
        (bodied (unwrap_or form 97) (label_at labels.entry.text.now label) (tokens_at labels.entry.text.now at)) (parts result) }
{
    let form = form?;
    if form == ORG {
        let above = Labels {
            text: labels.text,
            starts: above,
            addresses: labels.addresses,
        };
        return with_operand(above, label, form, at);
    }
    if digits_of(shape_of(Some(form))) > 0 {
        return with_operand(labels, label, form, at);
    }
    let Kind::End = token(labels.text, at).kind else {
        return None;
    };
    Some(Line {
        form: Some(form),
        label,
        value: NOTHING,
    })
}

// The line that starts here. An ORG's labels are looked up among those above. Its readers ask each that `at` is in the text: a struct of text and
// place would be made anew where each token ends, with as many facts to prove.
pub(crate) fn read_line(labels: Labels, above: &[u16], at: usize) -> Option<Line>
    requires { (at ≤ length labels.text.now) × (length labels.text.now ≤ 65535) }
    ensures { Shows labels.entry.text.now (names_of labels.entry.text.now above.now)
        (names_of labels.entry.text.now labels.entry.starts.now) labels.entry.addresses.now
        (statement (tokens_at labels.entry.text.now at)) (parts result) }
{
    if let Kind::End = token(labels.text, at).kind {
        return Some(Line {
            form: None,
            label: None,
            value: NOTHING,
        });
    }
    let name = labelling(labels.text, at);
    let head = heading(labels.text, name.next);
    let form = head.key.and_then(form_of);
    body(labels, above, name.start, form, head.next)
}
