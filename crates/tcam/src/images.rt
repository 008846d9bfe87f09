// Saving and loading for C: the image's bytes and the table's words are lent, data goes to lent cells.
// A refused save leaves the image buffer, a refused load the table, as it was.
ghost use Rattle.marshalling.specs.Cells.{flag_of};
ghost use Rattle.tcam.specs.Images.{SaveLeft, LoadLeft};

use loads::load;
use records::{Mode, cause_number};
use saves::save;

// The image of a table, into the lent buffer: its bytes, or a refusal.
pub fn tcam_save(
    table: &[u64],
    width: u32,
    uncounted: u32,
    image: &mut [u8],
    bytes: &mut u32,
    spot: &mut u32,
) -> u32
    ensures { SaveLeft width (flag_of uncounted) table.now result image.old image.new bytes.old bytes.new spot.old spot.new }
{
    match save(
        table,
        image,
        Mode {
            width: width as usize,
            uncounted: uncounted != 0,
        },
    ) {
        Ok(info) => {
            *bytes = info.bytes;
            0
        }
        Err(refusal) => {
            *spot = refusal.spot;
            cause_number(refusal.cause)
        }
    }
}

// The table of an image, into the lent table, or a refusal.
pub fn tcam_load(image: &[u8], table: &mut [u64], width: u32, uncounted: u32, spot: &mut u32) -> u32
    ensures { LoadLeft width (flag_of uncounted) image.now result table.old table.new spot.old spot.new }
{
    match load(
        image,
        table,
        Mode {
            width: width as usize,
            uncounted: uncounted != 0,
        },
    ) {
        Ok(()) => 0,
        Err(refused) => {
            *spot = refused.spot;
            cause_number(refused.cause)
        }
    }
}
