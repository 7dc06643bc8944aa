#![tactic(auto)]
// Runs form N on document 01's figures, the original's own vector, the refusals and both sides of each edge, and prints what it answers.
// The file `stdout` beside src/ was worked out by tools/expect-naf-figures, in Python integers, from the rules and without this library.
use figures::{EDGES, laid, lowest, recoded, tested_and_read, topped};
use forms::FormN;
use scalar::Scalar;
use scalar::slice::from_slice;
use std::io;

// A scalar recoded at a width, and its digits tested and read. What prints stands here and in the program of R's figures: a public function has a contract, and none can speak of what is printed.
fn recode(rt: &impl Print, name: &str, s: Scalar, w: usize) -> io::Result<()> {
    print!(rt; "{name} {w} {} \n", recoded::<FormN, _>(s, w))
}

// The edges of the two ranges at one width.
fn edges(rt: &impl Print, w: usize) -> io::Result<()> {
    for (name, rest, top) in EDGES {
        recode(rt, name, topped(rest, top), w)?;
    }
    Ok(())
}

// The edges at every width of the form.
fn every_width(rt: &impl Print) -> io::Result<()> {
    for w in 2..=8 {
        edges(rt, w)?;
    }
    Ok(())
}

// The first n of 257 digits, all 0 but two, tested and read at a width.
fn string(rt: &impl Print, n: usize, w: usize, named: [(usize, i8); 2]) -> io::Result<()> {
    let [(i, d), (j, e)] = named;
    let all = laid(i, d, j, e);
    if n > all.len() {
        return Ok(());
    }
    print!(rt;
        "string {n} {w} {} \n",
        tested_and_read::<FormN, _>(&all[..n], w)
    )
}

// 01's figures on small scalars, and their neighbours.
fn small_figures(rt: &impl Print) -> io::Result<()> {
    for (name, value, w) in [
        ("0", 0, 5),
        ("7", 7, 2),
        ("7", 7, 3),
        ("7", 7, 4),
        ("15", 15, 4),
        ("1", 1, 8),
        ("127", 127, 8),
        ("128", 128, 8),
        ("129", 129, 8),
        ("255", 255, 8),
    ] {
        recode(rt, name, lowest(value), w)?;
    }
    Ok(())
}

// Widths that are not N's.
fn wrong_widths(rt: &impl Print) -> io::Result<()> {
    for w in [0, 1, 9, 0x1_0000_0005, 0xFFFF_FFFF_FFFF_FFFF] {
        recode(rt, "7", lowest(7), w)?;
    }
    for w in [1, 9] {
        edges(rt, w)?;
    }
    Ok(())
}

// The original's vector A_SCALAR, whose digits at width 5 are its A_NAF.
fn original(rt: &impl Print) -> io::Result<()> {
    let taken = from_slice(
        b"\x1a\x0e\x97\x8a\x90\xf6\x62\x2d\x37\x47\x02\x3f\x8a\xd8\x26\x4d\xa7\x58\xaa\x1b\x88\xe0\x40\xd1\x58\x9e\x7b\x7f\x23\x76\xef\x09",
    );
    recode(rt, "A_SCALAR", taken.unwrap_or(Scalar::ZERO), 5)
}

// 01's figures on strings, and their neighbours.
fn strings(rt: &impl Print) -> io::Result<()> {
    for (w, named) in [
        (2, [(0, 1), (1, 1)]),
        (2, [(0, 2), (5, 1)]),
        (2, [(0, -1), (5, 0)]),
        (2, [(255, 1), (5, 0)]),
        (2, [(0, -1), (255, 1)]),
        (2, [(0, 1), (2, 1)]),
        (2, [(0, 3), (5, 0)]),
        (3, [(0, 3), (2, 1)]),
        (3, [(0, 3), (3, 1)]),
        (3, [(0, 5), (3, 1)]),
        (8, [(0, 127), (8, 1)]),
        (8, [(0, 127), (7, 1)]),
        (8, [(0, -128), (8, 1)]),
        (8, [(10, -127), (17, 2)]),
        (8, [(248, 1), (255, 1)]),
        (8, [(247, -1), (255, 1)]),
        (4, [(254, 1), (255, 9)]),
    ] {
        string(rt, 256, w, named)?;
    }
    Ok(())
}

// Lengths that are not N's, and widths that are not.
fn wrong_lengths(rt: &impl Print) -> io::Result<()> {
    for (n, w, d) in [
        (0, 5, 0),
        (255, 5, 1),
        (257, 5, 1),
        (256, 1, 1),
        (256, 9, 1),
        (255, 9, 1),
    ] {
        string(rt, n, w, [(0, d), (0, d)])?;
    }
    Ok(())
}

// All of them, in the order of `stdout`.
fn main(rt: HostRuntime) -> io::Result<()> {
    small_figures(&rt)?;
    every_width(&rt)?;
    wrong_widths(&rt)?;
    original(&rt)?;
    strings(&rt)?;
    wrong_lengths(&rt)
}
