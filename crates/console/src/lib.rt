#![tactic(auto)]
// What every program does around its work: standard input is read whole and standard output written whole, and a failure of
// either is one line on standard error. A failed read never looks like the end of the input.
ghost use Rattle.std.specs.Prelude.{◌≡◌, ◌≤◌, length, take};
ghost use Rattle.console.specs.Input.{GotWithin, GotFrom, InputWithin, InputFrom, judged};

use std::io;
use std::io::Read;

// What a read into `room` that answered `told` gave: an error is a failure, and no more came than there is room for.
fn judged(told: io::Result<usize>, room: &[u8]) -> io::Result<usize>
    ensures { result ≡ judged told (length room.now) }
{
    Ok(told?.min(room.len()))
}

// Reads once, into buf behind its first `done` bytes, which stay: how many bytes came, 0 at the end of the input.
fn read_behind<R: Read>(reader: &mut R, buf: &mut [u8], done: usize) -> io::Result<usize>
    requires { done ≤ length buf.old }
    ensures within { GotWithin done buf.old buf.new result }
    ensures bytes { GotFrom (R.remaining reader.old) (R.remaining reader.new) done buf.new result }
{
    let room = &mut buf[done..];
    let told = reader.read(room);
    judged(told, room)
}

// Reads into buf until the input ends or buf is full: how many bytes came.
fn read_whole<R: Read>(reader: &mut R, buf: &mut [u8]) -> io::Result<usize>
    ensures within { InputWithin buf.new result }
    ensures bytes { InputFrom (R.remaining reader.old) (R.remaining reader.new) buf.new result }
{
    // A read says how many bytes came: no iterator over `buf` gives the places.
    let mut done = 0;
    while done < buf.len() {
        let more = read_behind(reader, buf, done)?;
        if more == 0 {
            return Ok(done);
        }
        done += more;
    }
    Ok(done)
}

// One line on standard error. Where it can't be written either, there is nowhere left to say so.
fn complain(rt: &impl Eprint, line: &str) {
    let _ = rt.eprintln(line);
}

/// Reads standard input into `buf` as `read_whole` does, until it ends or `buf` is full, and gives the number of bytes, which
/// stand at the start of `buf`. Where it could not be read, one line on standard error says so, and the error is given back.
pub fn read_input(rt: &(impl io::Input + Eprint), buf: &mut [u8]) -> io::Result<usize>
    ensures { InputWithin buf.new result }
{
    let mut reader = rt.reader();
    let input = read_whole(&mut reader, buf);
    if input.is_err() {
        complain(rt, "standard input could not be read");
    }
    input
}

/// Writes all of `bytes` to standard output. Where that could not be done, one line on standard error says so, and the error is
/// given back.
pub fn print(rt: &(impl Print + Eprint), bytes: &[u8]) -> io::Result<()> {
    let written = rt.write_all(bytes);
    if written.is_err() {
        complain(rt, "standard output could not be written whole");
    }
    written
}
