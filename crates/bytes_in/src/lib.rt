// Bytes that are read into a lent slice until it is full or there are no more.
#![tactic(auto)]

ghost use Rattle.std.specs.Prelude.{◌≤◌, length, take};
ghost use Rattle.std.specs.Io.KnownBytes.{Consumes};

use std::io::Read;

// How many bytes were read; they stand at the slice's start. A read that fails counts as the end.
pub fn read_full<R: Read>(reader: &mut R, room: &mut [u8]) -> usize
    ensures bound { result ≤ length room.new }
    ensures bytes { Consumes (R.remaining reader.old) (R.remaining reader.new) (take result room.new) }
{
    let mut done = 0;
    while done < room.len() {
        let Ok(n) = reader.read(&mut room[done..]) else {
            break;
        };
        if n == 0 {
            break;
        }
        done += n;
    }
    done
}
