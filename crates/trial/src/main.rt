// The trial program: asks one question from end to end. Its arguments name the files of the whole, the path and the cut list.
#![tactic(auto)]

mod input;

use asking::question::{SLOTS, ask, cut_parts};
use asking::sites::sites_of;
use files::limits::{PART_WORDS, PATH_WORDS, WORK_BYTES};
use input::load;
use std::{env, io};

// A word more than a whole may have: a longer file is read as too long.
const WHOLE: usize = 4 * PART_WORDS + 4;
// A word more than a path may have: a longer file is read as too long.
const PATH: usize = 4 * PATH_WORDS + 4;
// A whole has at most 4,095 nodes, so a cut list that fills this has the wrong length.
const CUTS: usize = PART_WORDS;
// The bytes that a call's work or a list may take.
const BUFFER: usize = WORK_BYTES;

fn usage(rt: &HostRuntime) -> io::Result<()> {
    eprintln!(rt; "usage: trial WHOLE PATH CUT")
}

fn print_refusal(rt: &HostRuntime, number: u32) -> io::Result<()> {
    println!(rt; "refused {number}")
}

fn slots() -> [u8; SLOTS] {
    [0; SLOTS]
}

fn buffer() -> [u8; BUFFER] {
    [0; BUFFER]
}

// The whole question, to the number that refuses. A list that names no site is refused by the cutter, whichever site it is asked for.
fn question(rt: &HostRuntime, whole: &[u8], path: &[u8], cuts: &[u8]) -> Result<(), u32> {
    let mut parts = slots();
    let mut bundle = slots();
    let mut list = buffer();
    let mut work = buffer();
    let sites = sites_of(cuts).max(1);
    cut_parts(rt.stdout(), whole, cuts, sites, &mut parts, &mut work)?;
    ask(
        rt.stdout(),
        path,
        sites,
        &parts,
        &mut bundle,
        &mut list,
        &mut work,
    )?;
    Ok(())
}

fn run(rt: &HostRuntime, first: &str, second: &str, third: &str) -> io::Result<()> {
    let mut whole = [0u8; WHOLE];
    let mut path = [0u8; PATH];
    let mut cuts = [0u8; CUTS];
    let w = load(rt, first, &mut whole);
    let p = load(rt, second, &mut path);
    let c = load(rt, third, &mut cuts);
    let (Some(w), Some(p), Some(c)) = (w, p, c) else {
        return Ok(());
    };
    match question(rt, &whole[..w], &path[..p], &cuts[..c]) {
        Ok(()) => Ok(()),
        Err(number) => print_refusal(rt, number),
    }
}

fn main(rt: HostRuntime) -> io::Result<()> {
    let args: Vec<String> = env::args(&rt)?.collect(rt.alloc())?;
    match args.as_slice() {
        [_, first, second, third] => run(&rt, first.as_str(), second.as_str(), third.as_str()),
        _ => usage(&rt),
    }
}
