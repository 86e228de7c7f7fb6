// Reading that tells a failure from the end of the input.
ghost use Rattle.std.specs.Counts.{IsPrefixLen};

use std::io;

// How many bytes were read, and whether reading more of them failed.
// No Result: what was read before a failure counts too, so that both of its cases would hold the count.
#[derive(Clone, Copy)]
pub struct Read {
    pub count: usize,
    pub failed: bool,
}

// Reads until the buffer is full, the input ends or a read fails.
pub fn read_part<R: io::Read>(input: &mut R, part: &mut [u8]) -> Read
    ensures { IsPrefixLen result.count part.new }
{
    let mut count = 0;
    while count < part.len() {
        match input.read(&mut part[count..]) {
            Ok(0) => {
                return Read {
                    count,
                    failed: false,
                };
            }
            Ok(got) => count += got,
            Err(_) => {
                return Read {
                    count,
                    failed: true,
                };
            }
        }
    }
    Read {
        count,
        failed: false,
    }
}
