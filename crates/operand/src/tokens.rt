// Words and signs.
ghost use Rattle.std.specs.Prelude.{◌≡◌};
ghost use Rattle.std.specs.List.{position_from};
ghost use Rattle.operand.specs.Text.{in_word};
ghost use Rattle.operand.specs.Words.{fixed_words, same};
ghost use Rattle.operand.specs.Read.{found_in, lexeme_at, run, word_kind};

use crate::characters::{in_word, is_first, skip, word};

// What a token is.
#[derive(Clone, Copy, Debug, PartialEq, Eq)]
pub enum Kind {
    // The end of the line.
    End,
    Label,
    // A word that starts with a digit.
    Number,
    // A fixed word, by its place in the list.
    Fixed(u8),
    Sign(u8),
}

// A token: its kind, where it starts and what follows it.
#[derive(Clone, Copy)]
pub struct Lexeme {
    pub kind: Kind,
    pub start: usize,
    pub next: usize,
}

// The fixed words, with spaces behind the shorter ones. Slices would be a table of pointers, which an archive for C keeps where it can be written.
const FIXED_WORDS: [[u8; 5]; 61] = [
    *b"ADD  ", *b"A    ", *b"R1R0 ", *b"ADC  ", *b"SUB  ", *b"SBC  ", *b"DAA  ", *b"AND  ",
    *b"OR   ", *b"XOR  ", *b"INC  ", *b"R0   ", *b"R1   ", *b"R2   ", *b"R3   ", *b"R4   ",
    *b"R3R2 ", *b"DEC  ", *b"MOV  ", *b"RL   ", *b"RLC  ", *b"RR   ", *b"RRC  ", *b"IN   ",
    *b"PM   ", *b"PS   ", *b"PP   ", *b"OUT  ", *b"PA   ", *b"JMP  ", *b"JC   ", *b"JNC  ",
    *b"JTMR ", *b"JA0  ", *b"JA1  ", *b"JA2  ", *b"JA3  ", *b"JZ   ", *b"JNZ  ", *b"CALL ",
    *b"RET  ", *b"RETI ", *b"CLC  ", *b"STC  ", *b"EI   ", *b"DI   ", *b"NOP  ", *b"TIMER",
    *b"ON   ", *b"OFF  ", *b"TMRL ", *b"TMRH ", *b"READ ", *b"R4A  ", *b"MR0A ", *b"READF",
    *b"SOUND", *b"ONE  ", *b"LOOP ", *b"HALT ", *b"ORG  ",
];

// The place of a word in a list of words of up to five characters.
fn place(list: &[[u8; 5]], word: &[u8]) -> Option<usize>
    ensures { result ≡ position_from (λ known. same (run known) word.now) 0 list.now }
{
    list.iter().position(|known| is_first(known, word))
}

// The place of a word in the list of fixed words.
fn fixed(word: &[u8]) -> Option<usize>
    ensures { result ≡ found_in fixed_words word.now }
{
    place(&FIXED_WORDS, word)
}

// The kind of a word.
fn word_kind(word: &[u8]) -> Kind
    ensures { result ≡ word_kind word.now }
{
    if word.first().is_some_and(|c| c.is_ascii_digit()) {
        return Kind::Number;
    }
    match fixed(word) {
        Some(k) => Kind::Fixed(k as u8),
        None => Kind::Label,
    }
}

// The next token of a line. Past the end of the text a line ends.
pub fn token(text: &[u8], at: usize) -> Lexeme
    ensures { result ≡ lexeme_at text.now at }
{
    let start = skip(text, at);
    match text.get(start) {
        None | Some(b'\n') => Lexeme {
            kind: Kind::End,
            start,
            next: start,
        },
        Some(c) if in_word(*c) => {
            let word = word(text, start);
            Lexeme {
                kind: word_kind(word),
                start,
                next: start + word.len(),
            }
        }
        Some(c) => Lexeme {
            kind: Kind::Sign(*c),
            start,
            next: start + 1,
        },
    }
}
