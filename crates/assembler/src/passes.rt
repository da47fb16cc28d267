// The passes over a text. Each refuses it at the first line that it finds fault with.
ghost use Rattle.std.specs.Prelude.{◌≡◌, true, false, not, ◌&&◌, ◌||◌, ◌+◌, ◌-◌, ◌%◌, ◌<◌, ◌≤◌, get_or, length, replicate, set, eqb, is_some, unwrap_or, IfSome};
ghost use Rattle.isa.specs.Choice.{pick};
ghost use Rattle.operand.specs.Words.{among};
ghost use Rattle.operand.specs.Read.{names_of, word_at};
ghost use Rattle.assembler.specs.Forms.{rom_size};
ghost use Rattle.assembler.specs.Program.{end, first, line_of, mislabelled, misfit, misplaced, program, put, start, within};
ghost use Rattle.assembler.specs.Shapes.{form_number, is_free, is_misfit, listed, shape_number};
ghost use Rattle.std.specs.List.{list_all};
ghost use Rattle.std.proofs.lemmas.List.Edits.{sets};
ghost use Rattle.assembler.specs.Passing.{Collected, Placed, Refuses, Settled};
ghost use Rattle.refusals.specs.declared.Refusal.TheVariants as R;

use crate::forms::{ORG, Shape, bytes_of, digits_of, first_of, shape_of, size_of, values_of};
use crate::lines::{Line, read_line};
use crate::places::Places;
use crate::refused::Refused;
use operand::characters::word;
use operand::labels::{Labels, find};
use operand::operands::Value;
use refusals::Refusal;
use rom::encoder::Written;
use rom::reader::{MASK, moved_by};

const LAST_ADDRESS: u64 = MASK as u64 - 1;

// Notes a number, if there is one, in the next place of a list, and gives the count then.
fn note(list: &mut [u16], count: usize, value: Option<usize>) -> usize
    requires { IfSome value (λ v. (count < length list.old) × (v < 65536)) }
    ensures { (list.new ≡ pick (is_some value) (set list.old count (unwrap_or value 0)) list.old) × (result ≡ pick (is_some value) (count + 1) count) }
{
    match value {
        Some(value) => {
            list[count] = value as u16;
            count + 1
        }
        None => count,
    }
}

// Stores a line's bytes from its address on.
fn store(out: &mut [u8], at: usize, bytes: Option<Written>)
    requires { at + length (listed bytes) ≤ length out.old }
    ensures { out.new ≡ sets out.old at (listed bytes) }
{
    match bytes {
        None => {}
        Some(Written::One(byte)) => out[at] = byte,
        Some(Written::Two(first, second)) => {
            out[at] = first;
            out[at + 1] = second;
        }
    }
}

// Every line can be read; notes where the labels' words stand, and how many there are. No label is known yet.
pub(crate) fn read_lines(text: &[u8], starts: &mut [u16]) -> Result<usize, Refused>
    requires { (length text.now ≤ 65535) × (length starts.old ≡ 32768) }
    ensures collected { Collected text.now starts.new result }
    ensures refusal { Refuses R.Line result }
{
    let labels = Labels {
        text,
        starts: &[],
        addresses: &[],
    };
    let mut count = 0;
    for place in Places::new(text) {
        let Some(l) = read_line(labels, &[], place.at) else {
            return Err(Refused {
                refusal: Refusal::Line,
                line: place.number,
            });
        };
        count = note(starts, count, l.label);
    }
    Ok(count)
}

// Whether a line's label is among those above.
fn defined(text: &[u8], above: &[u16], label: Option<usize>) -> bool
    ensures { result ≡ (is_some label && among (names_of text.now above.now) (word_at text.now (unwrap_or label 0))) }
{
    match label {
        Some(start) => find(text, above, word(text, start)).is_some(),
        None => false,
    }
}

// Whether a line has a label that is missing, or its own is defined above.
fn mislabels(text: &[u8], above: &[u16], l: Line) -> bool
    ensures { result ≡ (l.value.missing || (is_some l.label && among (names_of text.now above.now) (word_at text.now (unwrap_or l.label 0)))) }
{
    l.value.missing || defined(text, above, l.label)
}

// No label is missing, not above its ORG or defined again. No address is known yet: only what is missing is looked at. An iterator of read lines, for
// this pass and the last two, is no plainer: it must count the labels above with each line, of which `defined` and the proofs' `Walk` speak.
pub(crate) fn check_labels(labels: Labels) -> Result<(), Refused>
    requires { Settled labels.text.now labels.starts.now labels.addresses.now (length labels.starts.now) }
    ensures line { line_of result ≡ first (mislabelled (end start (program labels.entry.text.now)).names) start 1 (program labels.entry.text.now) }
    ensures refusal { Refuses R.Label result }
{
    let mut count = 0;
    for place in Places::new(labels.text) {
        let above = &labels.starts[..count];
        let Some(l) = read_line(labels, above, place.at) else {
            unreachable!()
        };
        if mislabels(labels.text, above, l) {
            return Err(Refused {
                refusal: Refusal::Label,
                line: place.number,
            });
        }
        count += usize::from(l.label.is_some());
    }
    Ok(())
}

fn is_org(form: Option<usize>) -> bool
    ensures { result ≡ eqb (form_number form) 0 }
{
    form == Some(ORG)
}

// Whether a line is an ORG outside 0 to 4,095.
fn strays(form: Option<usize>, value: Value) -> bool
    ensures { result ≡ (eqb (form_number form) 0 && not (within rom_size value.plus value.minus)) }
{
    if !is_org(form) {
        return false;
    }
    match value.whole() {
        Some(address) => address > LAST_ADDRESS,
        None => true,
    }
}

// A line's address: an ORG's value, or the next one.
fn address_of(form: Option<usize>, value: Value, address: usize) -> usize
    ensures { result ≡ pick (eqb (form_number form) 0) (value.plus - value.minus) address }
{
    if is_org(form) {
        value.whole().unwrap_or(0) as usize
    } else {
        address
    }
}

fn is_clear(places: &[bool]) -> bool
    ensures { result ≡ list_all (λ p. not p) places.now }
{
    places.iter().all(|p| !*p)
}

// Whether a line's bytes have a place.
fn free(used: &[bool], at: usize, size: usize) -> bool
    requires { (length used.now ≡ rom_size) × (at ≤ rom_size) × (size ≤ 2) }
    ensures { result ≡ is_free used.now at size }
{
    match used.get(at..at + size) {
        Some(places) => is_clear(places),
        None => false, // a byte past the end
    }
}

// Notes that the bytes of a line are written.
fn mark(used: &mut [bool], at: usize, size: usize)
    requires { at + size ≤ length used.old }
    ensures { used.new ≡ sets used.old at (replicate size true) }
{
    used[at..at + size].fill(true);
}

// Gives each line its place, and each label its address.
// It takes the parts of a `Labels` and not one: it writes the addresses, which a `Labels` only reads.
pub(crate) fn place_lines(
    text: &[u8],
    starts: &[u16],
    addresses: &mut [u16],
    used: &mut [bool],
) -> Result<(), Refused>
    requires settled { Settled text.now starts.now addresses.old (length starts.now) }
    requires unused { used.old ≡ replicate rom_size false }
    ensures line { line_of result ≡ first misplaced start 1 (program text.now) }
    ensures placed { line_of result ≡ 0 → Placed text.now starts.now addresses.new (length starts.now) }
    ensures refusal { Refuses R.Operand result }
{
    let mut count = 0;
    let mut address = 0;
    for place in Places::new(text) {
        let above = &starts[..count];
        // only an ORG's value is looked at, whose labels stand above
        let labels = Labels {
            text,
            starts: &[],
            addresses,
        };
        let Some(l) = read_line(labels, above, place.at) else {
            unreachable!()
        };
        if strays(l.form, l.value) {
            return Err(Refused {
                refusal: Refusal::Operand,
                line: place.number,
            });
        }
        let here = address_of(l.form, l.value, address);
        let size = size_of(shape_of(l.form));
        if !free(used, here, size) {
            return Err(Refused {
                refusal: Refusal::Operand,
                line: place.number,
            });
        }
        count = note(addresses, count, l.label.and(Some(here)));
        mark(used, here, size);
        address = here + size;
    }
    Ok(())
}

// Whether a value is outside its field, or a branch does not fit, where a line has bytes at all.
fn misfits(size: usize, shape: Shape, address: usize, value: Value) -> bool
    requires { (address ≤ rom_size) × (size ≤ 2) }
    ensures { result ≡ is_misfit size (shape_number shape) address value.plus value.minus }
{
    if size == 0 {
        return false;
    }
    let Some(value) = value.whole() else {
        return true;
    };
    if value >= values_of(digits_of(shape)) {
        return true;
    }
    let Shape::Branch = shape else {
        return false;
    };
    let moved = moved_by(address as u16, size as u8);
    value / 2048 != moved as u64 / 2048
}

// Every value is in its field, and every branch fits.
pub(crate) fn check_values(labels: Labels) -> Result<(), Refused>
    requires { Placed labels.text.now labels.starts.now labels.addresses.now (length labels.starts.now) }
    ensures line { line_of result ≡ first (misfit (end start (program labels.entry.text.now))) start 1 (program labels.entry.text.now) }
    ensures refusal { Refuses R.Operand result }
{
    let mut count = 0;
    let mut address = 0;
    for place in Places::new(labels.text) {
        let above = &labels.starts[..count];
        let Some(l) = read_line(labels, above, place.at) else {
            unreachable!()
        };
        let here = address_of(l.form, l.value, address);
        let shape = shape_of(l.form);
        let size = size_of(shape);
        if misfits(size, shape, here, l.value) {
            return Err(Refused {
                refusal: Refusal::Operand,
                line: place.number,
            });
        }
        count += usize::from(l.label.is_some());
        address = here + size;
    }
    Ok(())
}

// The low 16 bits of a value.
fn value_of(value: Value) -> u16
    ensures { result ≡ (value.plus - value.minus) % 65536 }
{
    (value.whole().unwrap_or(0) % 65536) as u16
}

// Puts each line's bytes at its address.
pub(crate) fn write_lines(labels: Labels, out: &mut [u8])
    requires placed { Placed labels.text.now labels.starts.now labels.addresses.now (length labels.starts.now) }
    requires sized { length out.old ≡ rom_size }
    requires fits { first (misfit (end start (program labels.text.now))) start 1 (program labels.text.now) ≡ 0 }
    ensures { out.new ≡ put (end start (program labels.entry.text.now)) start (program labels.entry.text.now) out.old }
{
    let mut count = 0;
    let mut address = 0;
    for place in Places::new(labels.text) {
        let above = &labels.starts[..count];
        let Some(l) = read_line(labels, above, place.at) else {
            unreachable!()
        };
        let here = address_of(l.form, l.value, address);
        let shape = shape_of(l.form);
        let size = size_of(shape);
        store(
            out,
            here,
            bytes_of(shape, first_of(l.form), value_of(l.value)),
        );
        count += usize::from(l.label.is_some());
        address = here + size;
    }
}
