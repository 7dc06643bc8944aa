#![tactic(auto)]
// Runs form R on document 01's figures, the refusals and both sides of each edge, and prints what it answers.
// The file `stdout` beside src/ was worked out by tools/expect-radix-figures, in Python integers, from the rules and without this library.
use figures::{EDGES, laid, lowest, of_recoding, recoded, tested_and_read, topped};
use forms::FormR;
use radix::recode::as_radix_16;
use scalar::Scalar;
use std::io;

// A scalar recoded at a width, and its digits tested and read. What prints stands here and in the program of N's figures: a public function has a contract, and none can speak of what is printed.
fn recode(rt: &impl Print, name: &str, s: Scalar, w: usize) -> io::Result<()> {
    print!(rt; "{name} {w} {} \n", recoded::<FormR, _>(s, w))
}

// The edges of the two ranges at one width.
fn edges(rt: &impl Print, w: usize) -> io::Result<()> {
    for (name, rest, top) in EDGES {
        recode(rt, name, topped(rest, top), w)?;
    }
    Ok(())
}

// The edges at every width of the form.
fn every_width(rt: &impl Print) -> io::Result<()> {
    for w in 4..=8 {
        edges(rt, w)?;
    }
    Ok(())
}

// The first n of 257 digits, all 0 but two, tested and read at a width.
fn string(rt: &impl Print, n: usize, w: usize, named: [(usize, i8); 2]) -> io::Result<()> {
    let [(i, d), (j, e)] = named;
    let all = laid(i, d, j, e);
    if n > all.len() {
        return Ok(());
    }
    print!(rt;
        "string {n} {w} {} \n",
        tested_and_read::<FormR, _>(&all[..n], w)
    )
}

// 01's figures on small scalars, and their neighbours.
fn small_figures(rt: &impl Print) -> io::Result<()> {
    for (name, value, w) in [
        ("0", 0, 4),
        ("7", 7, 4),
        ("8", 8, 4),
        ("15", 15, 5),
        ("16", 16, 5),
        ("31", 31, 6),
        ("32", 32, 6),
        ("63", 63, 7),
        ("64", 64, 7),
        ("127", 127, 8),
        ("128", 128, 8),
        ("255", 255, 8),
    ] {
        recode(rt, name, lowest(value), w)?;
    }
    Ok(())
}

// Widths that are not R's.
fn wrong_widths(rt: &impl Print) -> io::Result<()> {
    recode(rt, "7", lowest(7), 0)?;
    for w in [3, 9] {
        edges(rt, w)?;
    }
    for w in [0x1_0000_0004, 0xFFFF_FFFF_FFFF_FFFF] {
        recode(rt, "7", lowest(7), w)?;
    }
    Ok(())
}

// The entry of its own for radix 16.
fn sixteen(rt: &impl Print) -> io::Result<()> {
    for top in [127, 255] {
        print!(rt;
            "radix16 {} \n",
            of_recoding::<FormR, _>(as_radix_16(topped(255, top)), 4)
        )?;
    }
    Ok(())
}

// A width's row; the row of a refused width is zeros.
fn row(rt: &impl Print, w: usize) -> io::Result<()> {
    show::text(rt, b"shape")?;
    show::number(rt, w as u64)?;
    let row = shape::shape(w);
    show::verdict(rt, row.and(Ok(())))?;
    let (digits, top, bits) = match row {
        Ok(row) => (row.digits, row.top, row.bits),
        Err(_) => (0, 0, 0),
    };
    show::number(rt, digits as u64)?;
    show::number(rt, top as u64)?;
    show::number(rt, bits as u64)?;
    show::end(rt)
}

// The rows of every width, and of widths that are not R's.
fn rows(rt: &impl Print) -> io::Result<()> {
    for w in [0, 3, 4, 5, 6, 7, 8, 9, 0x1_0000_0008] {
        row(rt, w)?;
    }
    Ok(())
}

// 01's figures on strings at widths 4 and 5, and their neighbours.
fn narrow_strings(rt: &impl Print) -> io::Result<()> {
    for (w, named) in [
        (5, [(0, 16), (1, 0)]),
        (5, [(0, 15), (1, 0)]),
        (5, [(0, -16), (1, 1)]),
        (5, [(0, -17), (1, 1)]),
        (5, [(51, 3), (0, 0)]),
        (5, [(52, 1), (0, 0)]),
        (5, [(51, 2), (0, 0)]),
        (5, [(0, -1), (51, 2)]),
        (5, [(51, 1), (0, 0)]),
        (5, [(51, -1), (0, 0)]),
        (5, [(0, -1), (1, 0)]),
        (4, [(63, 8), (0, 0)]),
        (4, [(63, 8), (0, -1)]),
        (4, [(63, 9), (0, -1)]),
        (4, [(62, -8), (63, 8)]),
    ] {
        string(rt, 64, w, named)?;
    }
    Ok(())
}

// And at the wider ones.
fn wide_strings(rt: &impl Print) -> io::Result<()> {
    for (w, named) in [
        (8, [(32, 1), (0, 0)]),
        (8, [(32, 1), (31, -128)]),
        (8, [(32, 2), (31, -128)]),
        (8, [(33, 1), (0, 0)]),
        (8, [(63, -1), (32, 1)]),
        (6, [(42, 16), (0, -1)]),
        (6, [(42, 16), (0, 0)]),
        (7, [(36, 16), (0, -1)]),
        (7, [(36, 17), (0, -1)]),
        (7, [(0, 64), (52, 1)]),
    ] {
        string(rt, 64, w, named)?;
    }
    Ok(())
}

// Lengths that are not R's, and widths that are not.
fn wrong_lengths(rt: &impl Print) -> io::Result<()> {
    for (n, w, d) in [
        (0, 5, 0),
        (63, 5, 1),
        (65, 5, 1),
        (64, 3, 1),
        (64, 9, 1),
        (63, 9, 1),
    ] {
        string(rt, n, w, [(0, d), (0, d)])?;
    }
    Ok(())
}

// All of them, in the order of `stdout`.
fn main(rt: HostRuntime) -> io::Result<()> {
    small_figures(&rt)?;
    every_width(&rt)?;
    wrong_widths(&rt)?;
    sixteen(&rt)?;
    rows(&rt)?;
    narrow_strings(&rt)?;
    wide_strings(&rt)?;
    wrong_lengths(&rt)
}
