// Prints the table of document 02's ticket 4 as a file of source, src/table.rt of crate wire_time. The gate compares what is
// printed with what stands there, but for the layout.
#![tactic(auto)]

ghost use Rattle.std.specs.Prelude.{◌≡◌, ◌*◌, ◌/◌, ◌^◌, ◌<◌};

use std::io;

// The file: a comment, and the constant.
fn main(rt: HostRuntime) -> io::Result<()> {
    println!(rt; "// Entry m is floor(m * 2^32 / 1000). Printed by program fractions.")?;
    println!(rt; "pub const FRACTIONS: [u32; 1000] = [")?;
    entries(&rt)?;
    println!(rt; "];")
}

// Entry m. The rule is stated here anew: the program rests on nothing that its output is compared with.
fn entry(m: u64) -> u64
    requires { m < 1000 }
    ensures { result ≡ m * 2 ^ 32 / 1000 }
{
    m * 4_294_967_296 / 1000
}

// The line of entry m.
fn line(rt: &impl Print, m: u64) -> io::Result<()>
    requires { m < 1000 }
{
    println!(rt; "    {},", entry(m))
}

// All 1,000, a line for each.
fn entries(rt: &impl Print) -> io::Result<()> {
    for m in 0..1000 {
        line(rt, m)?;
    }
    Ok(())
}
