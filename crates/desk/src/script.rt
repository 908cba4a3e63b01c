// Where the commands come from.
use std::{env, fs, io};

// The file named as the argument, or standard input where none is.
pub fn read(rt: &HostRuntime) -> io::Result<String> {
    let mut args = env::args(rt)?;
    let _program = args.next();
    match args.next() {
        Some(path) => fs::read_to_string(rt, path.as_str()),
        None => io::read_to_string(rt.alloc(), rt.stdin()),
    }
}
