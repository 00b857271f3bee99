// Whole files, read into a room and written from one. No contract can say what a file holds.
// std takes a path as text: one that is not UTF-8 names no file here.
#![tactic(auto)]

ghost use Rattle.std.specs.Option.{IfSome};
ghost use Rattle.io.specs.Counts.{IsPrefixLen};

use std::io::Read;
use std::rt::Files;
use std::{fs, str};

// Reads until the room is full, the file ends or a read fails, and answers how many bytes it read.
fn read_full(file: &mut impl Read, room: &mut [u8]) -> usize
    ensures { IsPrefixLen result room.new }
{
    let mut done = 0;
    while done < room.len() {
        match file.read(&mut room[done..]) {
            Ok(n) if 0 < n => done += n,
            _ => break,
        }
    }
    done
}

// Says whether a file has ended: a read that fails says no.
fn ended(file: &mut impl Read) -> bool {
    let mut past = [0u8; 1];
    matches!(file.read(&mut past), Ok(0))
}

// Reads a file into the room and answers its length; none if it cannot be read or is longer than the room.
pub fn read_file(rt: &impl Files, path: &[u8], room: &mut [u8]) -> Option<usize>
    ensures { IfSome result (λ length. IsPrefixLen length room.new) }
{
    let name = str::from_utf8(path).ok()?;
    let mut file = fs::open(rt, name).ok()?;
    let length = read_full(&mut file, room);
    ended(&mut file).then_some(length)
}

// Writes a file anew, and answers whether all of it was written.
pub fn write_file(rt: &impl Files, path: &[u8], bytes: &[u8]) -> bool {
    match str::from_utf8(path) {
        Ok(name) => fs::write(rt, name, bytes).is_ok(),
        Err(_) => false,
    }
}
