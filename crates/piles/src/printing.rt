// The lines of faults and of bytes.
use std::io;
use tags::Refusal;

// Stays: the matches that end here print another line each where something is granted; closures would be no shorter.
pub(super) fn print_fault<F: Refusal + Drop>(
    rt: &HostRuntime,
    word: &str,
    fault: F,
) -> io::Result<()> {
    let number = fault.number();
    let place = fault.place();
    let layer = fault.layer();
    println!(rt; "{word} {number} {place} {layer}")
}

pub(super) fn print_bytes(rt: &HostRuntime, name: &str, bytes: &[u8]) -> io::Result<()> {
    print!(rt; "{name}")?;
    for b in bytes {
        print!(rt; " {b:02x}")?;
    }
    println!(rt; "")
}
