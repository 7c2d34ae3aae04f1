// Document 01's figures: the starred ones stand in one table in specs/, settled from the definitions by one proof, and
// this program runs all of them through the functions and prints what they give. Nothing calls it.

#![tactic(auto)]

mod lines;
mod maps;

use lines::{measures, plain, reply, verdict};
use measure::{Bounds, HowFar, Point, Span};
use question::{Badge, Mark, Question};
use std::io;

fn main(rt: HostRuntime) -> io::Result<()> {
    measured(&rt)?;
    asked(&rt)?;
    badges(&rt)?;
    plain(&rt, "10", 0)?;
    plain(&rt, "10", 15)?;
    plain(&rt, "10", 16)?;
    counts(&rt)?;
    refused(&rt)
}

// Figures 1 to 5.
fn measured(out: &impl Print) -> io::Result<()> {
    measures(out, "1", point(-3, 2), bounds(0, 10, 0, 4))?;
    measures(out, "2", point(5, 2), bounds(0, 10, 0, 4))?;
    measures(out, "3", point(-1, 0), bounds(-3, 0, 0, 0))?;
    measures(out, "4", point(4, 5), bounds(1, 1, 1, 1))?;
    let corner = bounds(1000000, 1000000, 1000000, 1000000);
    measures(out, "5", point(-1000000, -1000000), corner)
}

// Figures 6 to 8.
fn asked(out: &impl Print) -> io::Result<()> {
    first_page(out, "6", 3, 40, &mut [0u8; 48])?;
    let example = maps::example();
    let between = question(point(6, 2), 1, 8, mark(16, 4));
    reply(out, "7, mark 16 4", &example, between, &mut [0u8; 16])?;
    let last = question(point(6, 2), 1, 8, mark(16, 7));
    reply(out, "7, mark 16 7", &example, last, &mut [0u8; 16])?;
    let empty = maps::empty();
    verdict(out, "8", &empty)?;
    let any = question(point(0, 0), 1, 1, mark(0, 0));
    reply(out, "8", &empty, any, &mut [0u8; 16])
}

// Figure 9: the zones of each badge are its lowest bits.
fn badges(out: &impl Print) -> io::Result<()> {
    first_page(out, "9, 8 zones", 1, 255, &mut [0u8; 16])?;
    first_page(out, "9, 9 zones", 1, 511, &mut [0u8; 16])?;
    first_page(out, "9, 31 zones", 1, 2147483647, &mut [0u8; 16])?;
    first_page(out, "9, 32 zones", 1, 4294967295, &mut [0u8; 16])
}

// Figure 11.
fn counts(out: &impl Print) -> io::Result<()> {
    first_page(out, "11, k 0", 0, 40, &mut [0u8; 0])?;
    first_page(out, "11, k 101", 101, 40, &mut [0u8; 1616])?;
    first_page(out, "11, k 1", 1, 40, &mut [0u8; 16])?;
    first_page(out, "11, k 100", 100, 40, &mut [0u8; 1600])?;
    first_page(out, "11, room 15", 1, 40, &mut [0u8; 15])
}

// Figures 12 and 13. The map with tight boxes shows that nothing else is wrong with the loose one.
fn refused(out: &impl Print) -> io::Result<()> {
    let example = maps::example();
    let outside = question(point(1000001, 2), 1, 40, mark(0, 0));
    reply(out, "12, x 1000001", &example, outside, &mut [0u8; 16])?;
    verdict(out, "12, inner root with 1 slot", &maps::one_slot())?;
    verdict(out, "12, boxes tight", &maps::two_leaves(37))?;
    let loose = maps::two_leaves(38);
    verdict(out, "12, a box one millimetre loose", &loose)?;
    reply(out, "13", &loose, outside, &mut [0u8; 16])
}

// k bays of the example map for a badge, from (6, 2) and the start.
fn first_page(
    out: &impl Print,
    figure: &str,
    k: usize,
    badge: u32,
    room: &mut [u8],
) -> io::Result<()> {
    let q = question(point(6, 2), k, badge, mark(0, 0));
    reply(out, figure, &maps::example(), q, room)
}

fn point(x: i32, y: i32) -> Point {
    Point { x, y }
}

fn bounds(xlow: i32, xhigh: i32, ylow: i32, yhigh: i32) -> Bounds {
    let x = Span {
        low: xlow,
        high: xhigh,
    };
    let y = Span {
        low: ylow,
        high: yhigh,
    };
    Bounds { x, y }
}

fn mark(dsq: u64, bay: u32) -> Mark {
    Mark {
        far: HowFar(dsq),
        bay,
    }
}

fn question(from: Point, k: usize, bits: u32, mark: Mark) -> Question {
    Question {
        from,
        k,
        badge: Badge::from_bits(bits),
        mark,
    }
}
