// Prints V.90 Table 1, a line for each law, sign and Ucode: LAW SIGN UCODE TABLE OCTET VALUE LINEAR, with the octet as printed and by
// arithmetic, the linear value as printed, and the signed sample by arithmetic.
#![tactic(auto)]

ghost use Rattle.std.specs.Prelude.{◌<◌};

use cases::name_of;
use standard::Law;
use std::io;
use table1::{printed_magnitude, printed_octet};

// The line of a Ucode.
fn print_row(rt: &impl Print, law: Law, sign: bool, ucode: u8) -> io::Result<()>
    requires { ucode < 128 }
{
    let name = name_of(law);
    let sign_bit = sign as u8;
    let table = printed_octet(law, sign, ucode);
    let octet = pcm::octet_of(law, sign, ucode);
    let value = printed_magnitude(law, ucode);
    let mut samples = [0];
    pcm::linear(law, &[octet], &mut samples).unwrap();
    let sample = samples[0];
    println!(rt; "{name} {sign_bit} {ucode} {table:02x} {octet:02x} {value} {sample}")
}

// The lines of a law and a sign.
fn print_column(rt: &impl Print, law: Law, sign: bool) -> io::Result<()> {
    for ucode in 0..128 {
        print_row(rt, law, sign, ucode)?;
    }
    Ok(())
}

// Both laws, each with the positive sign first.
fn print_all(rt: &impl Print) -> io::Result<()> {
    for (law, sign) in [
        (Law::Mu, true),
        (Law::Mu, false),
        (Law::A, true),
        (Law::A, false),
    ] {
        print_column(rt, law, sign)?;
    }
    Ok(())
}

// It ends with status 0 also where what it prints cannot be written.
fn main(rt: HostRuntime) {
    let _ = print_all(&rt);
}
