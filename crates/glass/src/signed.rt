// A signed whole number of its sign and its size.
ghost use Rattle.std.specs.Prelude.{◌≡◌};
ghost use Rattle.glass.specs.Pictures.{signed};

pub(crate) fn signed(minus: bool, size: u16) -> i32
    ensures { result ≡ signed minus size }
{
    let value = i32::from(size);
    if minus { -value } else { value }
}
