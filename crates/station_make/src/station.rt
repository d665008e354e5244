// The station of a number.
ghost use Rattle.std.specs.Prelude.{◌≡◌, ◌<◌, ◌≤◌};
ghost use Rattle.station_make.specs.Station.{loops, side, leaving, returning, main_length};

use plan_core::Side;

/// How many loops there are.
pub fn loops(n: u32) -> u32
    ensures value { result ≡ loops n }
    ensures limit { result ≤ 15 }
{
    n % 15 + 1
}

/// The side of the main track on which loop `i` lies.
pub fn side(n: u32, i: u32) -> Side
    requires { i < 15 }
    ensures { result ≡ side n i }
{
    if n / 15 >> i & 1 == 0 {
        Side::Upper
    } else {
        Side::Lower
    }
}

/// Where loop `i` leaves the main track, in metres.
pub fn leaving(i: u32) -> u32
    requires { i < 15 }
    ensures { result ≡ leaving i }
{
    1000 * i + 200
}

/// Where loop `i` comes back to the main track, in metres.
pub fn returning(i: u32) -> u32
    requires { i < 15 }
    ensures { result ≡ returning i }
{
    1000 * i + 800
}

/// The length of the main track, in metres.
pub fn main_length(n: u32) -> u32
    ensures { result ≡ main_length n }
{
    1000 * loops(n)
}
