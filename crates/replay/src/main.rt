// Replays stored answers of the Rust: records of 32 words from standard input, each a call, its number, fourteen words
// of arguments and the sixteen words that it must send. oracle/README.md says how they were made. Calls are told by
// number, as they are stored.

#![tactic(auto)]

use std::io;
use std::io::Read;

const RECORD_BYTES: usize = 128;

// At most so many records are read.
const MOST: u64 = 1_000_000;

// Floats compare by value: both zeros are one.
fn same_word(a: u32, b: u32) -> bool {
    a == b || (a % 0x8000_0000 == 0 && b % 0x8000_0000 == 0)
}

fn call(which: u32, args: &[u8], out: &mut [u8]) -> u32 {
    match which {
        0 => viewer::viewer_root(args, out),
        1 => viewer::viewer_acos(args, out),
        2 => viewer::viewer_prim_dist(args, out),
        3 => viewer::viewer_prim_bounds(args, out),
        4 => viewer::viewer_form_factor(args, out),
        5 => viewer::viewer_fresnel(args, out),
        6 => viewer::viewer_f0(args, out),
        _ => viewer::viewer_diffuse_albedo(args, out),
    }
}

// Whether a call sends the number and the words that its record says.
fn agrees(rec: &[u8; RECORD_BYTES]) -> bool {
    let mut out = [255; 64];
    let number = call(words::word(rec, 0), &rec[8..64], &mut out);
    number == words::word(rec, 1)
        && (0..16usize).all(|i| same_word(words::word(rec, 16 + i), words::word(&out, i)))
}

// The next record; none where the input ends before the record does.
fn read_record(input: &mut impl Read) -> io::Result<Option<[u8; RECORD_BYTES]>> {
    let mut rec = [0; RECORD_BYTES];
    match input.read_exact(&mut rec) {
        Ok(()) => Ok(Some(rec)),
        Err(e) if e.kind() == io::ErrorKind::UnexpectedEof => Ok(None),
        Err(e) => Err(e),
    }
}

fn main(rt: HostRuntime) -> io::Result<()> {
    let mut input = rt.reader();
    let mut seen = 0u64;
    let mut same = 0u64;
    for i in 0..MOST {
        let Some(rec) = read_record(&mut input)? else {
            break;
        };
        seen = i + 1;
        if agrees(&rec) {
            same += 1;
        }
    }
    println!(rt; "{same} of {seen} stored answers agree")
}
