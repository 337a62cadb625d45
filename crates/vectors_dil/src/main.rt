// Prints the default DIL: for each training symbol a line `symbol PLACE TABLE GENERATED`, the symbol as printed and by the generator; then
// for each law and length of the buffer lent a line `LAW LENGTH REFUSAL` and the whole buffer after the call, twelve octets a line. Before
// the call byte i of the buffer is i modulo 251.
#![tactic(auto)]

use cases::name_of;
use dil::SEGMENTS;
use standard::Law;
use std::io;

// The lines of the training symbols.
fn print_symbols(rt: &impl Print) -> io::Result<()> {
    for place in 0..SEGMENTS {
        let table = dil::training_symbol(place);
        let generated = dil::generated_symbol(place);
        println!(rt; "symbol {place} {table} {generated}")?;
    }
    Ok(())
}

// What a buffer holds before a call.
fn fill(octets: &mut [u8]) {
    for (i, octet) in octets.iter_mut().enumerate() {
        *octet = (i % 251) as u8;
    }
}

// A line of octets.
fn print_line(rt: &impl Print, octets: &[u8]) -> io::Result<()> {
    for octet in octets {
        print!(rt; "{octet:02x}")?;
    }
    println!(rt)
}

// The lines of a call with a buffer.
fn print_call(rt: &impl Print, law: Law, octets: &mut [u8]) -> io::Result<()> {
    fill(octets);
    let refusal = codes::code_of(dil::send_dil(law, octets));
    let name = name_of(law);
    let length = octets.len();
    println!(rt; "{name} {length} {refusal}")?;
    for line in octets.chunks(12) {
        print_line(rt, line)?;
    }
    Ok(())
}

// The calls of a law: no buffer, one that is an octet short, one that fits, and one with an octet to spare.
fn print_calls(rt: &impl Print, law: Law) -> io::Result<()> {
    let mut octets = [0; 1501];
    for length in [0, 1499, 1500, 1501] {
        print_call(rt, law, &mut octets[0..length])?;
    }
    Ok(())
}

// All lines.
fn print_all(rt: &impl Print) -> io::Result<()> {
    print_symbols(rt)?;
    print_calls(rt, Law::Mu)?;
    print_calls(rt, Law::A)
}

// It ends with status 0 also where what it prints cannot be written.
fn main(rt: HostRuntime) {
    let _ = print_all(&rt);
}
