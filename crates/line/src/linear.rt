// Octets as linear samples in text, one a line.
ghost use Rattle.std.specs.Prelude.{◌≡◌, ◌≤◌, false, length};

use crate::run;
use console::{Ends, Meter, Trouble};
use standard::Law;
use words::Text;

// Adds a sample and a newline.
fn add_sample(text: &mut Text<'_>, sample: i32)
    ensures { length text.new.bytes.now ≡ length text.old.bytes.now }
{
    if sample < 0 {
        text.add_values(b"-", &[]);
    }
    text.add_values(b"#\n", &[text::magnitude(sample)]);
}

// Writes the samples of up to 1,024 octets.
fn write_samples(e: Ends<'_>, law: Law, octets: &[u8]) -> Result<(), Trouble>
    requires { length octets.now ≤ 1024 }
{
    let mut samples = [0i32; 1024];
    // There is room for a sample of each octet, so it is not refused.
    let _ = pcm::linear(law, octets, &mut samples);
    let mut room = [0; 8192];
    let mut text = Text::new(&mut room);
    for sample in &samples[..octets.len()] {
        add_sample(&mut text, *sample);
    }
    e.write_out(text.as_slice())
}

// Writes the samples of what the next read gives; whether the input goes on.
fn linear_some(e: Ends<'_>, law: Law, meter: &mut Meter) -> Result<bool, Trouble> {
    let mut octets = [0u8; 1024];
    let count = e.read_some(&mut octets, 0, 1024)?;
    if count == 0 {
        return Ok(false);
    }
    let written = write_samples(e, law, &octets[..count]);
    meter.advance(e, count, meter.bytes / 6);
    written.map(|()| true)
}

// What came of the octets: how far the stream came, and what ended it before the input did.
#[derive(Clone, Copy)]
pub struct Sampled {
    pub meter: Meter,
    pub ended: Result<(), Trouble>,
}

// Writes the linear samples of the input's octets to the output, one a line.
pub fn linear_stream(e: Ends<'_>, law: Law) -> Sampled
    ensures { result.meter.open ≡ false }
{
    let mut meter = Meter::begun(e.rt);
    let ended = run(|| linear_some(e, law, &mut meter));
    meter.close(e);
    Sampled { meter, ended }
}
