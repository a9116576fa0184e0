// Cases of the documents and our own, run by the compiled code, one line each. The file stdout beside
// src/ was written by hand from the documents, and the gate compares.
#![tactic(auto)]

use std::io;

mod images; // images.rt: images, and what the reader answers
mod rows; // rows.rt: instructions, and what they decode to
mod words; // words.rt: operations on words

fn main(rt: HostRuntime) -> io::Result<()> {
    let mut out = rt.stdout();
    words::table(&mut out)?;
    words::others(&mut out)?;
    rows::table(&mut out)?;
    rows::ends(&mut out)?;
    images::code(&mut out)?;
    images::parts(&mut out)?;
    images::sample(&mut out)?;
    images::changes(&mut out)?;
    images::pairs(&mut out)?;
    images::ranges(&mut out)?;
    images::long(&mut out)?;
    images::largest(&mut out)?;
    images::longest_code(&mut out)
}
