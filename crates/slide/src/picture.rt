// The slide that is scanned: a piece of tissue with two lobes and a vessel, as a shade for each tile.
ghost use Rattle.std.specs.Prelude.{◌<◌};

use tiles::COLUMNS;

// Shades are 0 to 5, from bare glass to the wall of a vessel.

fn apart(a: u16, b: u16) -> u32
    ensures { result < 65536 }
{
    u32::from(a.abs_diff(b))
}

// How far a place is from another, which is so far across and down: the roundest measure that needs no square.
fn away(across: u32, down: u32) -> u64 {
    u64::from(across.max(down)) + u64::from(across.min(down) / 2)
}

// Tissue is denser towards the middle of a lobe, and of uneven grain.
fn tissue(depth: u64, is_coarse: bool) -> u8 {
    match depth {
        0..22 => 3 + u8::from(is_coarse),
        22..36 => 2 + u8::from(is_coarse),
        36..46 => 1 + u8::from(is_coarse),
        _ => 0,
    }
}

fn is_coarse(x: u16, y: u16) -> bool {
    (x % 64 * 3 + y % 64 * 7 + x % 64 / 3 + y % 64 / 2 * 3) % 11 < 4
}

pub fn shade(n: u16) -> u8 {
    let x = n % COLUMNS;
    let y = n / COLUMNS;
    let vessel = away(apart(x, 14) * 2, apart(y, 16) * 3);
    if vessel < 6 {
        return 0;
    }
    if vessel < 10 {
        return 5;
    }
    let left = away(apart(x, 17) * 3, apart(y, 15) * 4);
    let right = away(apart(x, 29) * 4, apart(y, 9) * 5);
    tissue(left.min(right), is_coarse(x, y))
}

// How the map shows a shade.
pub fn glyph(shade: u8) -> u8 {
    match shade {
        0 => b' ',
        1 => b'.',
        2 => b':',
        3 => b'+',
        4 => b'*',
        5 => b'#',
        _ => b'?',
    }
}
