// Reading a file into a lent buffer.
#![tactic(auto)]

ghost use Rattle.std.specs.Prelude.{◌≤◌, length};

use std::io::Read;
use std::rt::Files;
use std::{fs, str};

// The file's first bytes, as far as the buffer reaches; a file that can't be opened, or of which a read fails, counts as empty. A path that
// is not UTF-8 can't be opened. No contract can say what a file holds: that the count lies within the buffer is all that is known of it.
pub fn read_file<R: Files>(rt: &R, path: &[u8], buffer: &mut [u8]) -> usize
    ensures { result ≤ length buffer.new }
{
    let Ok(path) = str::from_utf8(path) else {
        return 0;
    };
    let Ok(mut file) = fs::open(rt, path) else {
        return 0;
    };
    read_open(&mut file, buffer)
}

// A read gives some bytes, as many as there are just then, 0 at the end of the file, or an error. Bytes before a read that fails are not
// counted: the text would be cut.
// A `while`, since each read tells how far the next one begins; `read_to_end` would want a `Vec`.
fn read_open<F: Read>(file: &mut F, buffer: &mut [u8]) -> usize
    ensures { result ≤ length buffer.new }
{
    let mut done = 0;
    while done < buffer.len() {
        let Ok(n) = file.read(&mut buffer[done..]) else {
            return 0;
        };
        if n == 0 {
            return done;
        }
        done += n;
    }
    done
}
