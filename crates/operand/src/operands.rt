// Operands: "sums and differences of operands, with parentheses up to 16 deep". The reader of sums and the reader of parentheses call each other.
ghost use Rattle.std.specs.Prelude.{◌≡◌, ◌-◌, ◌≤◌, leb, length, None, Some};
ghost use Rattle.isa.specs.Choice.{pick};
ghost use Rattle.operand.specs.Read.{Lexed, OperandRead, PartRead, going_on, names_of, operand_at, single_of, valued};
ghost use Rattle.operand.specs.declared.tokens.Kind.TheVariants.{Sign};

use crate::characters::word;
use crate::labels::{Labels, address};
use crate::numbers::number;
use crate::tokens::{Kind, Lexeme, token};

// "parentheses up to 16 deep"
const DEEPEST: u8 = 16;

// The bytes of the longest text that is assembled: what an operand counts in one is far below a u64's end.
const LONGEST: usize = 65535;

// What an operand counts: what is added and what is taken away, and whether one of its labels is missing. A flag and no Option of the numbers:
// `operand` promises them (`valued`) also where a label is missing, which counts 0.
#[derive(Clone, Copy)]
pub struct Value {
    pub missing: bool,
    pub plus: u64,
    pub minus: u64,
}

impl Value {
    // What is added less what is taken away, if that is no less than 0.
    pub fn whole(self) -> Option<u64>
        ensures { result ≡ pick (leb self.minus self.plus) (Some (self.plus - self.minus)) None }
    {
        self.plus.checked_sub(self.minus)
    }
}

// What a part of one counts, and what follows it.
#[derive(Clone, Copy)]
struct Sum {
    value: Value,
    next: usize,
}

// A number or a label by itself; a label that is missing has no value.
fn single(value: Option<u16>, taken: bool) -> Value
    ensures { result ≡ single_of value taken }
{
    let missing = value.is_none();
    let value = value.unwrap_or(0) as u64;
    if taken {
        Value {
            missing,
            plus: 0,
            minus: value,
        }
    } else {
        Value {
            missing,
            plus: value,
            minus: 0,
        }
    }
}

// A number or a label.
fn term(labels: Labels, at: usize, lexeme: Lexeme, depth: u8, taken: bool) -> Option<Sum>
    requires lexed { Lexed labels.text.now at lexeme }
    requires not_opening { lexeme.kind ≡ Sign 40 → ⊥ }
    ensures { PartRead labels.entry.text.now (names_of labels.entry.text.now labels.entry.starts.now)
        labels.entry.addresses.now at depth taken result }
{
    match lexeme.kind {
        Kind::Label => Some(Sum {
            value: single(address(labels, lexeme.start), taken),
            next: lexeme.next,
        }),
        Kind::Number => {
            let n = number(word(labels.text, lexeme.start))?;
            Some(Sum {
                value: single(Some(n), taken),
                next: lexeme.next,
            })
        }
        _ => None,
    }
}

// Whether what follows a sign is taken away, if a sum or a difference goes on with it.
fn goes_on(kind: Kind, minus: bool) -> Option<bool>
    ensures { result ≡ going_on kind minus }
{
    match kind {
        Kind::Sign(b'+') => Some(minus),
        Kind::Sign(b'-') => Some(!minus),
        _ => None,
    }
}

// A parenthesis, or the number or label that stands without one.
#[cycle(joined_parenthesis)]
fn parenthesis(labels: Labels, at: usize, depth: u8, minus: bool) -> Option<Sum>
    requires { (at ≤ length labels.text.now) × (length labels.text.now ≤ 65535) × (depth ≤ 16) }
    ensures { PartRead labels.entry.text.now (names_of labels.entry.text.now labels.entry.starts.now)
        labels.entry.addresses.now at depth minus result }
{
    let open = token(labels.text, at);
    let Kind::Sign(b'(') = open.kind else {
        return term(labels, at, open, depth, minus);
    };
    if depth == 0 {
        return None;
    }
    let inner = joined(labels, open.next, depth - 1, minus)?;
    let close = token(labels.text, inner.next);
    let Kind::Sign(b')') = close.kind else {
        return None;
    };
    Some(Sum {
        value: inner.value,
        next: close.next,
    })
}

// Sums and differences; all of it is taken away if `minus`.
#[cycle(joined_parenthesis)]
fn joined(labels: Labels, at: usize, depth: u8, minus: bool) -> Option<Sum>
    requires { (at ≤ length labels.text.now) × (length labels.text.now ≤ 65535) × (depth ≤ 16) }
    ensures { OperandRead labels.entry.text.now (names_of labels.entry.text.now labels.entry.starts.now)
        labels.entry.addresses.now at depth minus result }
{
    let mut plus = 0;
    let mut less = 0;
    let mut missing = false;
    let mut taken = minus;
    let mut i = at;
    // A loop and no iterator: each part says where the next starts.
    loop {
        let part = parenthesis(labels, i, depth, taken)?;
        plus += part.value.plus;
        less += part.value.minus;
        missing |= part.value.missing;
        let sign = token(labels.text, part.next);
        let Some(turned) = goes_on(sign.kind, minus) else {
            return Some(Sum {
                value: Value {
                    missing,
                    plus,
                    minus: less,
                },
                next: part.next,
            });
        };
        taken = turned;
        i = sign.next;
    }
}

// The operand from here to the end of its line.
pub fn operand(labels: Labels, at: usize) -> Option<Value>
    ensures { result ≡ valued (names_of labels.entry.text.now labels.entry.starts.now)
        labels.entry.addresses.now (operand_at labels.entry.text.now at) }
{
    if labels.text.len() > LONGEST || at > labels.text.len() {
        return None;
    }
    let sum = joined(labels, at, DEEPEST, false)?;
    match token(labels.text, sum.next).kind {
        Kind::End => Some(sum.value),
        _ => None,
    }
}
