use be_command::{CommandFault, Names, read_command, write_command};
use be_lex::Lines;
use std::alloc::{AllocError, Global};

/// Reads all lines in each of the rounds, and then gives each as it is spelt.
pub fn spelt_after(alloc: Global, bytes: &[u8], rounds: u32) -> Result<Vec<u8>, CommandFault> {
    let names = names(alloc)?;
    for _round in 0..rounds {
        read_all(alloc, bytes, &names)?;
    }
    spelt(alloc, bytes, &names)
}

fn names(alloc: Global) -> Result<Names, CommandFault> {
    let mut names = Names::new(alloc);
    if names.add_window("w").is_err()
        || names.add_view("v").is_err()
        || names.add_bitmap("b").is_err()
    {
        return Err(CommandFault::NoMemory);
    }
    Ok(names)
}

fn read_all(alloc: Global, bytes: &[u8], names: &Names) -> Result<(), CommandFault> {
    let mut lines = Lines::of(bytes);
    while let Some(line) = lines.next() {
        let _command = read_command(alloc, line.text(), names)?;
    }
    Ok(())
}

fn spelt(alloc: Global, bytes: &[u8], names: &Names) -> Result<Vec<u8>, CommandFault> {
    let mut written = Vec::new(alloc);
    let mut lines = Lines::of(bytes);
    while let Some(line) = lines.next() {
        let command = read_command(alloc, line.text(), names)?;
        let again = write_command(alloc, &command, names)?;
        add_line(&mut written, again.as_slice()).map_err(|_| CommandFault::NoMemory)?;
    }
    Ok(written)
}

fn add_line(written: &mut Vec<u8>, line: &[u8]) -> Result<(), AllocError> {
    written.extend_from_slice(line)?;
    written.push(b'\n')?;
    Ok(())
}
