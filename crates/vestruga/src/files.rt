// Files read whole, and replaced whole or not at all.
use super::troubles::Trouble;
use std::{fs, io};

pub(super) fn read(rt: &HostRuntime, path: &str) -> Result<Vec<u8>, Trouble> {
    fs::read(rt, path).try_map_err(|error| -> Result<Trouble, Trouble> {
        let path = String::from_str(rt.alloc(), path)?;
        Ok(Trouble::NotRead { path, error })
    })
}

// The bytes go to a file beside the old one, which takes its name once they are all written.
pub(super) fn replace(rt: &HostRuntime, path: &str, bytes: &[u8]) -> Result<(), Trouble> {
    let partial = format!(in rt.alloc(); "{path}.partial")?;
    replace_by(rt, &partial, path, bytes).try_map_err(|error| -> Result<Trouble, Trouble> {
        let path = String::from_str(rt.alloc(), path)?;
        Ok(Trouble::NotWritten { path, error })
    })
}

fn replace_by(rt: &HostRuntime, partial: &str, path: &str, bytes: &[u8]) -> io::Result<()> {
    fs::write(rt, partial, bytes)?;
    fs::rename(rt, partial, path)
}
