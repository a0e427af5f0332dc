// The tiles of a slide as bytes, and whether bytes are those of a tile.
#![tactic(auto, unfolding(crate::specs::Tiles::tile_length, crate::specs::Tiles::tile_byte, crate::specs::Tiles::tile_start, crate::specs::Tiles::tile))]

ghost use Rattle.std.specs.Prelude.{◌≡◌, ◌<◌, ◌≤◌, length};
ghost use Rattle.tiles.specs.Tiles.{tile_length, tile_byte, tile_start, tile_padded, is_tile};

// A slide is 41 tiles wide and 29 high, numbered row by row.
pub const COLUMNS: u16 = 41;

pub const ROWS: u16 = 29;

pub const TILES: u16 = COLUMNS * ROWS;

// The most bytes of a tile.
pub const MAX_TILE: usize = 1024;

// How many bytes tile n has: 3 to 1,024.
pub fn length(n: u16) -> usize
    ensures { result ≡ tile_length n }
{
    3 + usize::from(n) * 89 % 1022
}

// Byte j of tile n: its shade, its number, then bytes that differ from tile to tile.
fn byte(shade: u8, n: u16, j: usize) -> u8
    requires { j < 1024 }
    ensures { result ≡ tile_byte shade n j }
{
    let number = usize::from(n);
    match j {
        0 => shade,
        1 => (number / 256 % 256) as u8,
        2 => (number % 256) as u8,
        _ => ((number * 31 + j * 7 + j / 16) % 256) as u8,
    }
}

// Fills a part with the bytes that tile n starts with.
fn fill(shade: u8, n: u16, part: &mut [u8])
    requires { length part.old ≤ 1024 }
    ensures { part.new ≡ tile_start shade n (length part.old) }
{
    for (j, place) in part.iter_mut().enumerate() {
        *place = byte(shade, n, j);
    }
}

// Tile n's bytes, and zeros behind them.
pub fn bytes_of(shade: u8, n: u16) -> [u8; MAX_TILE]
    ensures { result ≡ tile_padded shade n }
{
    let len = length(n);
    let mut out = [0u8; MAX_TILE];
    fill(shade, n, &mut out[..len]);
    out
}

// Whether these bytes are tile n, all of it and nothing else.
pub fn is_tile(shade: u8, n: u16, bytes: &[u8]) -> bool
    ensures { result ≡ is_tile shade n bytes.now }
{
    if bytes.len() != length(n) {
        return false;
    }
    for (i, found) in bytes.iter().enumerate() {
        if *found != byte(shade, n, i) {
            return false;
        }
    }
    true
}
