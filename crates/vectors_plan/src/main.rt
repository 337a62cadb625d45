// Prints plans: for each law and each K from 14 to 43 a line `K LAW largest SPACING`, the largest spacing that is accepted; then for each of
// nine spacings a line `K LAW SPACING CEILING REFUSAL M SUM MASK` with the largest ceiling, and where that is accepted, with its sum as the
// ceiling and with one less. The spacings are 0, 1, 16, 100, 600, the largest that is accepted, one more, 65535 and 65536.
#![tactic(auto)]

use cases::name_of;
use standard::{Law, Planned};
use std::io;

// What is printed as the plan of a call that is refused.
const NO_PLAN: Planned = Planned {
    points: 0,
    mask: [0, 0],
    sum: 0,
};

// The line of a call.
// K and the law go with `rt`, here and below: a struct of them would be made and taken apart for one call of `plan`.
fn print_call(rt: &impl Print, k: u32, law: Law, spacing: u32, ceiling: u64) -> io::Result<()> {
    let name = name_of(law);
    let planned = plan::plan(k, law, spacing, ceiling);
    let refusal = codes::code_of(planned);
    let Planned { points, mask, sum } = planned.unwrap_or(NO_PLAN);
    let [low, high] = mask;
    println!(rt; "{k} {name} {spacing} {ceiling} {refusal} {points} {sum} {high:016x}{low:016x}")
}

// The lines of a spacing.
fn print_spacing(rt: &impl Print, k: u32, law: Law, spacing: u32) -> io::Result<()> {
    print_call(rt, k, law, spacing, u64::MAX)?;
    if let Ok(planned) = plan::plan(k, law, spacing, u64::MAX) {
        print_call(rt, k, law, spacing, planned.sum)?;
        print_call(rt, k, law, spacing, planned.sum.saturating_sub(1))?;
    }
    Ok(())
}

// The lines of a K.
fn print_rate(rt: &impl Print, k: u32, law: Law) -> io::Result<()> {
    let name = name_of(law);
    let largest = plan::largest_spacing(k, law, u64::MAX);
    println!(rt; "{k} {name} largest {largest}")?;
    for spacing in [0, 1, 16, 100, 600, largest, largest + 1, 65535, 65536] {
        print_spacing(rt, k, law, spacing)?;
    }
    Ok(())
}

// The lines of a law.
fn print_law(rt: &impl Print, law: Law) -> io::Result<()> {
    for k in 14..44 {
        print_rate(rt, k, law)?;
    }
    Ok(())
}

// All lines.
fn print_all(rt: &impl Print) -> io::Result<()> {
    print_law(rt, Law::Mu)?;
    print_law(rt, Law::A)
}

// It ends with status 0 also where what it prints cannot be written.
fn main(rt: HostRuntime) {
    let _ = print_all(&rt);
}
