// A number as it is drawn and written: with the fewest digits, at least one, and one before any point.
ghost use Rattle.std.specs.Prelude.{◌≡◌, ◌≤◌, ◌/◌, ◌%◌, ◌^◌};
ghost use Rattle.glass.specs.Drawing.{enough, fewest, fits, point_at};

#[derive(Clone, Copy, Debug, PartialEq, Eq)]
pub(crate) struct Figure {
    pub(crate) minus: bool,
    pub(crate) size: u32,
    // How many digits follow the point.
    pub(crate) places: u8,
    pub(crate) digits: u8,
    ghost few: { digits ≤ 4 },
}

const POWERS: [u32; 5] = [1, 10, 100, 1000, 10000];

// A power of ten, by a table: `pow` multiplies for each digit that is drawn or written.
fn power(n: u8) -> u32
    requires { n ≤ 4 }
    ensures { result ≡ 10 ^ n }
{
    POWERS[usize::from(n)]
}

// Whether `n` digits hold a number, with one before the point.
fn enough(size: u32, places: u8, n: u8) -> bool
    requires { n ≤ 4 }
    ensures { result ≡ enough size places n }
{
    size < power(n) && places < n
}

// The fewest digits; 5 where four are not enough, and no Option, since `fewest` of the definitions says so.
fn fewest(size: u32, places: u8) -> u8
    ensures { result ≡ fewest size places }
{
    for n in 1..5 {
        if enough(size, places, n) {
            return n;
        }
    }
    5
}

// Whether `n` digits, with a minus or not, have room on the glass.
fn fits(minus: bool, n: u8) -> bool
    ensures { result ≡ fits minus n }
{
    if minus { n < 4 } else { n < 5 }
}

impl Figure {
    ghost use Rattle.glass.specs.Walk.{FigureOf};

    // None where the number does not fit the glass.
    pub(crate) fn of(value: i32, places: u8) -> Option<Figure>
        ensures { FigureOf value places result }
    {
        let minus = value.is_negative();
        let size = value.unsigned_abs();
        let digits = fewest(size, places);
        if !fits(minus, digits) {
            return None;
        }
        Some(Figure {
            minus,
            size,
            places,
            digits,
        })
    }

    // The numeral that has `after` places to its right.
    pub(crate) fn numeral(self, after: u8) -> u8
        requires { after ≤ 3 }
        ensures { result ≡ self.size / 10 ^ after % 10 }
    {
        (self.size / power(after) % 10) as u8
    }

    // Whether the point is lit on it.
    pub(crate) fn pointed(self, after: u8) -> bool
        ensures { result ≡ point_at after self.places }
    {
        after == self.places && after != 0
    }
}
