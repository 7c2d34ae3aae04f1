// The station's library as C, C++ and Rust hosts link it: each export calls the function of `station` of its name, under the
// same clauses. include/krylozhma.h declares them. A slice is a pointer and a length to C.
// Kept (2): C needs the names exported, and a crate that exports to C is no library for `trial`.

#![tactic(auto)]

ghost use Rattle.std.specs.Prelude.{◌≡◌};
ghost use Rattle.measure.specs.Axes.{min_dist, min_max_dist};
ghost use Rattle.measure.specs.Answer.{measured_by};
ghost use Rattle.measure.specs.Root.{RootOf};
ghost use Rattle.rules.specs.Verdicts.{number_of, node_of, verdict_of};
ghost use Rattle.ask.specs.Reply.{reply_of};
ghost use Rattle.station.specs.Station.{paired, asked, axes};

// The map check: the first broken rule and the lowest node at fault.
#[unsafe(no_mangle)]
pub extern "C" fn krylozhma_check(map: &[u8]) -> u64
    ensures { result ≡ paired (number_of (verdict_of map.now)) (node_of (verdict_of map.now)) }
{
    station::krylozhma_check(map)
}

// A question: the answer and how many bays were found; the room as the reply leaves it.
#[unsafe(no_mangle)]
pub extern "C" fn krylozhma_ask(
    map: &[u8],
    x: i32,
    y: i32,
    k: u32,
    badge: u32,
    dsq: u64,
    bay: u32,
    room: &mut [u8],
) -> u64
    ensures { (result ≡ paired (reply_of map.now (asked x y k badge dsq bay) room.old).number (reply_of map.now (asked x y k badge dsq bay) room.old).found)
        × (room.new ≡ (reply_of map.now (asked x y k badge dsq bay) room.old).room) }
{
    station::krylozhma_ask(map, x, y, k, badge, dsq, bay, room)
}

// The answer that both measures give: 0, 1 or 2.
#[unsafe(no_mangle)]
pub extern "C" fn krylozhma_measure_answer(
    x: i32,
    y: i32,
    xlow: i32,
    xhigh: i32,
    ylow: i32,
    yhigh: i32,
) -> u32
    ensures { (result ≡ (measured_by min_dist (axes x y xlow xhigh ylow yhigh)).number)
        × (result ≡ (measured_by min_max_dist (axes x y xlow xhigh ylow yhigh)).number) }
{
    station::krylozhma_measure_answer(x, y, xlow, xhigh, ylow, yhigh)
}

// MINDIST, 0 when it is refused.
#[unsafe(no_mangle)]
pub extern "C" fn krylozhma_mindist(
    x: i32,
    y: i32,
    xlow: i32,
    xhigh: i32,
    ylow: i32,
    yhigh: i32,
) -> u64
    ensures { result ≡ (measured_by min_dist (axes x y xlow xhigh ylow yhigh)).value }
{
    station::krylozhma_mindist(x, y, xlow, xhigh, ylow, yhigh)
}

// MINMAXDIST, 0 when it is refused.
#[unsafe(no_mangle)]
pub extern "C" fn krylozhma_minmaxdist(
    x: i32,
    y: i32,
    xlow: i32,
    xhigh: i32,
    ylow: i32,
    yhigh: i32,
) -> u64
    ensures { result ≡ (measured_by min_max_dist (axes x y xlow xhigh ylow yhigh)).value }
{
    station::krylozhma_minmaxdist(x, y, xlow, xhigh, ylow, yhigh)
}

// The plain distance of a squared one.
#[unsafe(no_mangle)]
pub extern "C" fn krylozhma_plain(dsq: u64) -> u64
    ensures { RootOf dsq result }
{
    station::krylozhma_plain(dsq)
}
