// PCM octets and their linear values, made by arithmetic on law, sign and Ucode: V.90 Table 1.
#![tactic(auto)]

ghost use Rattle.std.specs.Prelude.{◌≡◌, ◌%◌, ◌^◌, ◌<◌};
ghost use Rattle.standard.specs.Octets.{positive_octet, octet, sign_of, ucode_of, magnitude, sample_of};
ghost use Rattle.standard.specs.Refusals.{outcome_answer};
ghost use Rattle.standard.specs.Calls.{linear_call, linear_refusal, linear_samples};

use standard::{Law, Refusal};

// The positive octet of Ucode 0. XOR with a Ucode makes it that Ucode's.
// No twin of `cases::name_of`: that gives a word for each law, this an octet, and a match on two laws is all that both have.
fn first_octet(law: Law) -> u8
    ensures { result ≡ positive_octet law 0 }
{
    match law {
        Law::Mu => 0xff,
        Law::A => 0xd5,
    }
}

// The octet of a sign and a Ucode; of a Ucode above 127 the seven low bits count.
pub fn octet_of(law: Law, sign: bool, ucode: u8) -> u8
    ensures { result ≡ octet law sign (ucode % 128) }
{
    first_octet(law) ^ (ucode % 128) ^ ((!sign as u8) << 7)
}

// The sign of an octet: its top bit, 1 for positive.
pub fn sign_of(octet: u8) -> bool
    ensures { result ≡ sign_of octet }
{
    octet / 128 % 2 == 1
}

// The Ucode of an octet.
pub fn ucode_of(law: Law, octet: u8) -> u8
    ensures { (result ≡ ucode_of law octet) × (result < 128) }
{
    (octet ^ first_octet(law)) % 128
}

// The linear value of a Ucode with the positive sign, by its Uchord s and its place q in it.
pub fn magnitude_of(law: Law, ucode: u8) -> u32
    requires { ucode < 128 }
    ensures { (result ≡ magnitude law ucode) × (result < 2 ^ 15) }
{
    let s = (ucode / 16) as u32;
    let q = (ucode % 16) as u32;
    match law {
        Law::Mu => ((8 * q + 132) << s) - 132,
        Law::A => {
            let up = (s != 0) as u32;
            (16 * q + 8 + 256 * up) << (s - up)
        }
    }
}

// The signed linear value of an octet.
fn sample_of(law: Law, octet: u8) -> i32
    ensures { result ≡ sample_of law octet }
{
    let size = magnitude_of(law, ucode_of(law, octet)) as i32;
    if sign_of(octet) { size } else { 0 - size }
}

// The entry: each octet's signed linear value into `samples`; refusal 17 where it is shorter than `octets`.
pub fn linear(law: Law, octets: &[u8], samples: &mut [i32]) -> Result<(), Refusal>
    ensures refusal { outcome_answer result ≡ linear_refusal (linear_call law octets.now samples.old) }
    ensures written { samples.new ≡ linear_samples (linear_call law octets.now samples.old) }
{
    if samples.len() < octets.len() {
        return Err(Refusal::OutputTooShort);
    }
    for (i, octet) in octets.iter().enumerate() {
        samples[i] = sample_of(law, *octet);
    }
    Ok(())
}
