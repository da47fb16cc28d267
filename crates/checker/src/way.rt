// The way to a forbidden place: a shortest chain from address 0, level 0 to the pair that the checker names.
ghost use Rattle.std.specs.Prelude.{◌≡◌, [], ◌∷◌, ◌++◌, ◌*◌, ◌+◌, ◌<◌, ◌≤◌, drop, length};
ghost use Rattle.reach.specs.Trail.{Before, Counted, Stands, StandsFirst};
ghost use Rattle.checker.specs.Trail.{ListedTo, Listings};
ghost use Rattle.checker.specs.Walk.{pair_of, pairs};
ghost use Rattle.checker.specs.Ways.{WayAnswers, listed};

use crate::walk::Walk;
use refusals::Refusal;
use rom::reader::check_mask;

// A pair's three bytes.
fn put(list: &mut [u8], at: usize, code: u16)
    requires { at + 3 ≤ length list.old }
    ensures list_after { drop at list.new ≡ listed (pair_of code ∷ []) ++ drop (at + 3) list.old }
    ensures list_len_unchanged { length list.new ≡ length list.old }
{
    let [low, high] = (code / 3).to_le_bytes();
    list[at..at + 3].copy_from_slice(&[low, high, (code % 3) as u8]);
}

// The way back, over the places of the queue. `place < pairs`, or of `end`, keeps an index in its array; a type of places would be no plainer.
impl Walk {
    // The first place of a code that stands in the queue.
    fn place_of(&self, code: u16) -> u16
        requires { Stands pairs self.now.queue code }
        ensures { (result < pairs) × StandsFirst self.now.queue code result }
    {
        self.queue.iter().position(|c| *c == code).unwrap_or(0) as u16
    }

    // The place before a place after the first. Going back from place to place, each place is passed once.
    fn place_before(&self, place: u16) -> u16
        requires { (0 < place) × (place < pairs) }
        ensures { Before self.now.starts result place }
    {
        let found = self.starts[..place as usize]
            .iter()
            .rposition(|start| *start <= place);
        found.unwrap_or(0) as u16
    }

    // How many places there are from place 0 on to this one.
    fn count_to(&self, end: u16) -> u16
        requires { end < pairs }
        ensures { (result ≤ pairs) × Counted self.now.starts end result }
    {
        let mut place = end;
        let mut count: u16 = 1;
        // No `for`: the next place is known from this one alone, here and in `put_all`.
        while place != 0 {
            place = self.place_before(place);
            count += 1;
        }
        count
    }

    // The pairs at the places from 0 to `end`, from the last one back.
    fn put_all(&self, list: &mut [u8], end: u16, count: u16)
        requires { (end < pairs) × Counted self.now.starts end count × (3 * count ≤ length list.old) }
        ensures { Listings self.now.queue self.now.starts end count list.old list.new }
    {
        let mut place = end;
        let mut left = (count as usize - 1) * 3;
        put(list, left, self.queue[place as usize]); // the last pair
        while place != 0 {
            place = self.place_before(place);
            left -= 3;
            put(list, left, self.queue[place as usize]);
        }
    }

    // The way to a code that stands in the queue, if the list has room for it.
    fn list_to(&self, list: &mut [u8], code: u16) -> Result<u16, Refusal>
        requires { Stands pairs self.now.queue code }
        ensures { ListedTo self.now.queue self.now.starts code list.old list.new result }
    {
        let end = self.place_of(code);
        let count = self.count_to(end);
        if list.len() < count as usize * 3 {
            return Err(Refusal::List);
        }
        self.put_all(list, end, count);
        Ok(count)
    }
}

// Lists a shortest chain from address 0, level 0 to the pair that `check` names, three bytes a pair, and answers its count of pairs. Which of several
// chains is free.
pub fn way(mask: &[u8], list: &mut [u8]) -> Result<u16, Refusal>
    ensures { WayAnswers mask.now list.old list.new result }
{
    check_mask(mask)?;
    let mut walk = Walk::new();
    match walk.run(mask) {
        Some(lowest) => walk.list_to(list, lowest.code),
        None => Err(Refusal::Passes),
    }
}
