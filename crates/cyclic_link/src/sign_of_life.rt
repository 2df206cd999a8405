// The master's sign of life (request 3): a value from 1 to 15 in every cycle, on a class 4 axis with block bit 5 at 0.
ghost use Rattle.std.specs.Prelude.{◌≡◌, min, ◌+◌};
ghost use Rattle.cyclic_link.specs.SignOfLife as SignOfLife;

use crate::{Life, Link};
use encoder::parameters::Fields;

// The sign of life of an axis, by its parameters.
pub fn life_of(fields: Fields) -> Life
    ensures { result ≡ SignOfLife.life_of fields }
{
    Life {
        on: fields.sign_of_life(),
        stop: 10 * fields.life as u32,
    }
}

// The failure counter after a value.
fn counter(stop: u32, link: Link, sign: u32) -> u32
    ensures { result ≡ SignOfLife.counter stop link sign }
{
    let failures = link.counter;
    if link.expected == 0 {
        return failures;
    }
    if sign != link.expected {
        return more(failures, stop);
    }
    if failures == 0 { 0 } else { failures - 1 }
}

// Ten failures more, up to the stop.
fn more(failures: u32, stop: u32) -> u32
    ensures { result ≡ min (failures + 10) stop }
{
    let next = failures as u64 + 10;
    if next < stop as u64 {
        next as u32
    } else {
        stop
    }
}

// The value that is expected after this one.
fn expected(link: Link, sign: u32) -> u32
    ensures { result ≡ SignOfLife.expected link sign }
{
    if (link.expected == 0) & (sign == 0) {
        return 0;
    }
    sign % 15 + 1
}

// The link once this cycle is counted.
pub(crate) fn hear(life: Life, link: Link, sign: u32) -> Link
    ensures { result ≡ SignOfLife.heard life link sign }
{
    let mut next = link;
    if life.on {
        next.counter = counter(life.stop, link, sign);
        next.expected = expected(link, sign);
    }
    next
}

// The counter stands at its stop. Without a sign of life there is no stop.
pub(crate) fn at_stop(life: Life, link: Link) -> bool
    ensures { result ≡ SignOfLife.at_stop life link }
{
    life.on & (link.counter == life.stop)
}
