// The walk over the pairs that a mask may run.
ghost use Rattle.std.specs.Prelude.{◌≡◌, ◌<◌, ◌≤◌, get_or, replicate};
ghost use Rattle.reach.specs.Trail.{Traced};
ghost use Rattle.reach.specs.Walk.{Found, Room, Small, pushed, pushed_all, work};
ghost use Rattle.checker.specs.Walk.{NamesOf, codes_of, lowered, next_codes, pairs};

use crate::next::{Codes, next_codes};
use isa::ADDRESSES;

// How many pairs there are, and codes of them: an address in three levels.
pub(crate) const PAIRS: usize = ADDRESSES as usize * 3;

// A forbidden code and its fault, by document 01's number, which the machine's status and the hosts have too.
#[derive(Clone, Copy)]
pub struct Named {
    pub code: u16,
    pub fault: u8,
}

// The lower of what is named, if anything is, and this forbidden code.
fn lower(named: Option<Named>, code: u16, fault: u8) -> Named
    ensures { result ≡ lowered named code fault }
{
    match named {
        Some(lowest) if lowest.code <= code => lowest,
        _ => Named { code, fault },
    }
}

// What the walk finds, in two arrays, since `Traced` speaks of two lists. How many are found is handed along: the way back does not need it.
#[derive(Drop)]
pub(crate) struct Walk {
    // A flag for each code, 1 where chains from the start, code 0, reach its pair: no `bool`, since `pack` adds flags up.
    pub(crate) seen: [u8; PAIRS],
    // The codes found, in the order in which they were found.
    pub(crate) queue: [u16; PAIRS],
    // For each of their places how many were found when its turn came, which is all that the way back needs.
    pub(crate) starts: [u16; PAIRS],
    ghost opens: { get_or starts 0 0 ≤ 1 },
}

impl Walk {
    pub(crate) fn new() -> Walk
        ensures { (result.seen ≡ replicate pairs 0) × (result.queue ≡ replicate pairs 0) × (result.starts ≡ replicate pairs 0) }
    {
        Walk {
            seen: [0; PAIRS],
            queue: [0; PAIRS],
            starts: [0; PAIRS],
        }
    }

    // A code that is not found yet goes to the queue's end. Returns how many are found.
    fn push(&mut self, tail: u16, code: u16) -> u16
        requires code_lt_pairs { code < pairs }
        requires room { Room pairs self.old.seen tail }
        ensures found { work self.new.seen self.new.queue result ≡ pushed (work self.old.seen self.old.queue tail) code }
        ensures starts_kept { self.new.starts ≡ self.old.starts }
    {
        let at = code as usize;
        if self.seen[at] != 0 {
            return tail;
        }
        let end = tail as usize;
        self.seen[at] = 1;
        self.queue[end] = code;
        tail + 1
    }

    // Each of these codes that is not found yet goes to the queue's end.
    fn push_all(&mut self, tail: u16, codes: Codes) -> u16
        requires small { Small pairs (codes_of codes) }
        requires room { Room pairs self.old.seen tail }
        ensures found { work self.new.seen self.new.queue result ≡ pushed_all (work self.old.seen self.old.queue tail) (codes_of codes) }
        ensures starts_kept { self.new.starts ≡ self.old.starts }
    {
        match codes {
            Codes::Nothing => tail,
            Codes::One(a) => self.push(tail, a),
            Codes::Two(a, b) => {
                let one = self.push(tail, a);
                self.push(one, b)
            }
            Codes::Three(a, b, c) => {
                let one = self.push(tail, a);
                let two = self.push(one, b);
                self.push(two, c)
            }
        }
    }

    // The walk over the pairs that chains from the start reach, each taken once, in the order in which they were found. Returns the lowest forbidden
    // code, if there is one.
    pub(crate) fn run(&mut self, mask: &[u8]) -> Option<Named>
        requires { (self.old.seen ≡ replicate pairs 0) × (self.old.queue ≡ replicate pairs 0) × (self.old.starts ≡ replicate pairs 0) }
        ensures found { Found pairs (next_codes mask.now) self.new.seen }
        ensures traced { Traced pairs (next_codes mask.now) self.new.seen self.new.queue self.new.starts }
        ensures names { NamesOf mask.now self.new.seen result }
    {
        self.seen[0] = 1;
        let mut head: u16 = 0;
        let mut tail: u16 = 1;
        let mut named: Option<Named> = None;
        // No `for`: the queue grows as it is walked.
        while head < tail {
            let at = head as usize;
            self.starts[at] = tail;
            let code = self.queue[at];
            head += 1;
            match next_codes(mask, code) {
                Ok(codes) => tail = self.push_all(tail, codes),
                Err(fault) => named = Some(lower(named, code, fault)),
            }
        }
        named
    }
}
