// The station's library: thin functions over the libraries, with numbers in and out, each with a contract that cites the
// same definitions. `station_c` exports them to C, C++ and Rust hosts.

#![tactic(auto)]

ghost use Rattle.std.specs.Prelude.{◌≡◌, ◌<◌};
ghost use Rattle.measure.specs.Axes.{min_dist, min_max_dist};
ghost use Rattle.measure.specs.Answer.{measured_by};
ghost use Rattle.measure.specs.Root.{RootOf};
ghost use Rattle.rules.specs.Verdicts.{number_of, node_of, verdict_of};
ghost use Rattle.ask.specs.Reply.{reply_of};
ghost use Rattle.station.specs.Station.{paired, asked, axes};

use measure::{Bounds, HowFar, Point, Span, SquaredMm, answer_of, mindist, minmaxdist, value_of};
use question::{Badge, Mark, Question};

fn point(x: i32, y: i32) -> Point
    ensures { result ≡ record { x = x; y = y } }
{
    Point { x, y }
}

// Two numbers in one: the first in the upper 32 bits.
// Kept (1): the C interface hands back an answer and what goes with it as one number (include/krylozhma.h).
fn pair(high: u64, low: u64) -> u64
    requires { (high < 4294967296) × (low < 4294967296) }
    ensures { result ≡ paired high low }
{
    4294967296 * high + low
}

// The map check: the first broken rule and the lowest node at fault.
pub fn krylozhma_check(map: &[u8]) -> u64
    ensures { result ≡ paired (number_of (verdict_of map.now)) (node_of (verdict_of map.now)) }
{
    let verdict = rules::check(map);
    pair(
        u64::from(rules::number_of(verdict)),
        rules::node_of(verdict) as u64,
    )
}

fn question_of(x: i32, y: i32, k: u32, badge: u32, dsq: u64, bay: u32) -> Question
    ensures { result ≡ asked x y k badge dsq bay }
{
    Question {
        from: point(x, y),
        k: k as usize,
        badge: Badge::from_bits(badge),
        mark: Mark {
            far: HowFar(dsq),
            bay,
        },
    }
}

// A question: the answer and how many bays were found; the room as the reply leaves it.
// Kept (5): to C a point, a mark and a box are numbers, here and below.
pub fn krylozhma_ask(
    map: &[u8],
    x: i32,
    y: i32,
    k: u32,
    badge: u32,
    dsq: u64,
    bay: u32,
    room: &mut [u8],
) -> u64
    ensures { (result ≡ paired (reply_of map.now (asked x y k badge dsq bay) room.old).number (reply_of map.now (asked x y k badge dsq bay) room.old).found)
        × (room.new ≡ (reply_of map.now (asked x y k badge dsq bay) room.old).room) }
{
    let answer = ask::ask(map, question_of(x, y, k, badge, dsq, bay), room);
    let number = u64::from(ask::number_of(answer));
    let found = ask::found_in(answer) as u64;
    pair(number, found)
}

fn bounds(xlow: i32, xhigh: i32, ylow: i32, yhigh: i32) -> Bounds
    ensures { result ≡ record { x = record { low = xlow; high = xhigh }; y = record { low = ylow; high = yhigh } } }
{
    let x = Span {
        low: xlow,
        high: xhigh,
    };
    let y = Span {
        low: ylow,
        high: yhigh,
    };
    Bounds { x, y }
}

// The answer that both measures give: 0, 1 or 2.
pub fn krylozhma_measure_answer(x: i32, y: i32, xlow: i32, xhigh: i32, ylow: i32, yhigh: i32) -> u32
    ensures { (result ≡ (measured_by min_dist (axes x y xlow xhigh ylow yhigh)).number)
        × (result ≡ (measured_by min_max_dist (axes x y xlow xhigh ylow yhigh)).number) }
{
    answer_of(mindist(point(x, y), bounds(xlow, xhigh, ylow, yhigh)))
}

// MINDIST, 0 when it is refused.
pub fn krylozhma_mindist(x: i32, y: i32, xlow: i32, xhigh: i32, ylow: i32, yhigh: i32) -> u64
    ensures { result ≡ (measured_by min_dist (axes x y xlow xhigh ylow yhigh)).value }
{
    value_of(mindist(point(x, y), bounds(xlow, xhigh, ylow, yhigh))).0
}

// MINMAXDIST, 0 when it is refused.
// Kept (2): the C interface has a name for each measure, as it has for the answer of both.
pub fn krylozhma_minmaxdist(x: i32, y: i32, xlow: i32, xhigh: i32, ylow: i32, yhigh: i32) -> u64
    ensures { result ≡ (measured_by min_max_dist (axes x y xlow xhigh ylow yhigh)).value }
{
    value_of(minmaxdist(point(x, y), bounds(xlow, xhigh, ylow, yhigh))).0
}

// The plain distance of a squared one.
pub fn krylozhma_plain(dsq: u64) -> u64
    ensures { RootOf dsq result }
{
    measure::plain(SquaredMm(dsq)).0
}
