// The lent output: bytes put into it while there is room, and how a conversion ends.
ghost use Rattle.std.specs.Prelude.{◌≡◌, length};
ghost use Rattle.convert.specs.Convert.{conversion_of, refusing};
ghost use Rattle.convert.specs.Inner.{poured, put_byte, finished};

use crate::Converted;

// One byte more, where there is room: how many bytes were to be put, one more than there are places where they were too many.
pub fn put(out: &mut [u8], many: usize, byte: u8) -> usize
    ensures { poured out.new result ≡ put_byte (poured out.old many) byte }
{
    let room = out.len();
    if many < room {
        out[many] = byte;
        return many + 1;
    }
    room + 1
}

// A refusal: the output all zero.
pub fn refuse(out: &mut [u8], number: u8, place: usize) -> Converted
    ensures { conversion_of out.new result ≡ refusing (length out.old) number place }
{
    clearing::clear_bytes(out);
    Converted {
        number,
        place,
        length: 0,
    }
}

// The end of what is read: 7 where the output is too small.
pub fn finish(out: &mut [u8], many: usize) -> Converted
    ensures { conversion_of out.new result ≡ finished (poured out.old many) }
{
    if out.len() < many {
        return refuse(out, 7, 0);
    }
    Converted {
        number: 0,
        place: 0,
        length: many,
    }
}
