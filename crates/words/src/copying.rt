// A message's bytes into its cell.
ghost use Rattle.std.specs.Prelude.{◌≡◌, ◌++◌, ◌≤◌, length, take, drop};
ghost use Rattle.engine.specs.Sizes.{DATA_BYTES};

use engine::DATA_BYTES;

// By way of a room that is as long.
fn copy_by(src: &[u8], room: &mut [u8], dst: &mut [u8])
    requires { (length src.now ≤ length dst.old) × (length src.now ≡ length room.old) }
    ensures { dst.new ≡ take (length src.now) src.now ++ drop (length src.now) dst.old }
{
    room.copy_from_slice(src);
    let n = room.len();
    dst[..n].copy_from_slice(room);
}

// As `copy_from_slice` does, by way of a room that overlaps neither: for all that the compiler knows the two runs may overlap, and it would copy them in small steps. With a room
// of our own between them it sees two whole copies, and makes one of them.
pub fn copy(src: &[u8], dst: &mut [u8])
    requires { (length src.now ≤ length dst.old) × (length src.now ≤ DATA_BYTES) }
    ensures { dst.new ≡ take (length src.now) src.now ++ drop (length src.now) dst.old }
{
    let mut room = [0u8; DATA_BYTES];
    let n = src.len();
    copy_by(src, &mut room[..n], dst);
}
