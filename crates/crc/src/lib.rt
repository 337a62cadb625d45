// The CRC of V.34, of a CP and of the control channel's sequence: over bits of a buffer, sixteen at a time.
#![tactic(auto)]

ghost use Rattle.std.specs.Prelude.{◌≡◌, ◌^◌, ◌<◌, ◌≤◌};
ghost use Rattle.standard.specs.Lists.{list_from, after};
ghost use Rattle.standard.specs.Bits.{bit_at, bits_of};
ghost use Rattle.standard.specs.Crc.{crc_step};
ghost use Rattle.standard.specs.Cp.{cp_crc};
ghost use Rattle.crc.specs.Crc.{crc_zeros};

// The CRC register after eight zero bits.
fn crc_eight(register: u16) -> u16
    ensures { result ≡ crc_zeros 8 register }
{
    let low = register % 256;
    let mixed = (low ^ (low << 4)) % 256;
    (mixed << 8) ^ (mixed << 3) ^ (mixed >> 4) ^ (register >> 8)
}

// The CRC register after n bits, lowest first: XOR takes them, and n zero bits follow. Those meet the n lowest bits that XOR leaves, and
// the bits above these move down by n. Put at the top, the n lowest come down with the first 16 - n of sixteen zero bits.
fn crc_some(register: u16, bits: u16, n: usize) -> u16
    requires { (1 ≤ n) × (n ≤ 16) × (bits < 2 ^ n) }
    ensures { result ≡ after crc_step register (bits_of n bits) }
{
    let mixed = register ^ bits;
    crc_eight(crc_eight(mixed << (16 - n))) ^ ((mixed >> (n - 1)) >> 1)
}

// The CRC register after the `count` bits from bit `at` on. A step takes sixteen of them, and the last one what is left, so no range counts it.
// A count beside the bytes: it counts bits, which no slice does.
pub fn crc_from(register: u16, bytes: &[u8], at: usize, count: usize) -> u16
    requires { (at ≤ 2 ^ 20) × (count ≤ 2 ^ 20) }
    ensures { result ≡ after crc_step register (list_from (bit_at bytes.now) at count) }
{
    let mut crc = register;
    let mut done = 0;
    while done < count {
        let n = (count - done).min(16);
        let some = bits::field_at(bytes, at + done, n) as u16;
        crc = crc_some(crc, some, n);
        done += n;
    }
    crc
}

// The CRC of a CP: that of the 16 bits between each start bit and the next, from bit 18 on.
pub fn crc_of(cp: &[u8], g: usize) -> u16
    requires { g ≤ 5 }
    ensures { result ≡ cp_crc (bit_at cp.now) g }
{
    let words = 15 + 8 * g;
    let mut register: u16 = 0xffff;
    for i in 0..words {
        register = crc_from(register, cp, 18 + 17 * i, 16);
    }
    register
}
