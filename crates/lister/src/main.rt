// Lists the CPU features of a device tree: reads the tree from standard input and prints its list, line by line. A tree that is refused is
// a list too, of one line.
#![tactic(auto)]

ghost use Rattle.std.specs.Prelude.{◌≤◌, length, IfOk};

use header::LARGEST_TREE;
use listing::LONGEST_LINE;
use std::io;
use std::io::{Read, Write};

// Prints a tree's list, line by line.
fn print_list(rt: &impl Print, tree: &[u8]) -> io::Result<()> {
    let mut line: [u8; LONGEST_LINE] = [0; LONGEST_LINE];
    for k in 0..u32::MAX {
        let Ok(length) = listing::write_line(tree, k, &mut line) else {
            return Ok(());
        };
        io::writer(rt).write_all(&line[..length as usize])?;
    }
    Ok(())
}

// Reads until the buffer is full or the input ends, and answers how many bytes it put at the buffer's front.
fn read_full(input: &mut impl Read, buffer: &mut [u8]) -> io::Result<usize>
    ensures { IfOk result (λ n. n ≤ length buffer.old) }
{
    let mut done = 0;
    // No `for`: each read moves the place on by as many bytes as it gave.
    while done < buffer.len() {
        let got = input.read(&mut buffer[done..])?;
        if got == 0 {
            return Ok(done);
        }
        done += got;
    }
    Ok(done)
}

fn main(rt: HostRuntime) {
    // What follows the most bytes of a tree in the input changes no line, so that it is not read.
    let mut tree: [u8; LARGEST_TREE] = [0; LARGEST_TREE];
    let Ok(length) = read_full(&mut rt.stdin(), &mut tree) else {
        let _ = eprintln!(rt; "lister: the tree cannot be read");
        return;
    };
    if print_list(&rt, &tree[..length]).is_err() {
        let _ = eprintln!(rt; "lister: the list cannot be written");
    }
}
