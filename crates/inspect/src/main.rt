//! inspect IMAGE: tells what is on a card, sector by sector, and gives a verdict.
#![tactic(auto)]

mod card;
mod heap;
mod report;
mod told;

use anyhow::{anyhow, bail};
use std::process::ExitCode;
use std::{env, fs, io};
use survey::{Condition, ImageError, LONGEST, SECTORS};
use told::{Table, Told, told_of};

// The image that is looked at where no other is named.
const USUAL: &str = "heap.img";

// The file's bytes, unless it is too long for a card image.
fn read_image(rt: &HostRuntime, path: &str) -> anyhow::Result<Vec<u8>> {
    let found = fs::metadata(rt, path).map_err(|error| match error.kind() {
        io::ErrorKind::NotFound => anyhow!("there is no such file"),
        _ => error.into(),
    })?;
    if found.len() > LONGEST as u64 {
        bail!(ImageError::TooLong);
    }
    Ok(fs::read(rt, path)?)
}

fn inspect(rt: &HostRuntime, path: &str) -> anyhow::Result<()> {
    let image = read_image(rt, path)?;
    let mut table = Table {
        places: [Condition::Torn; SECTORS],
    };
    let Told { sectors, heap } = told_of(&mut table, image)?;
    println!(rt; "{sectors}")?;
    println!(rt; "{heap}")?;
    Ok(())
}

// Inspects the image, or says on the error stream what is wrong with it.
fn tell(rt: &HostRuntime, path: &str) -> anyhow::Result<ExitCode> {
    match inspect(rt, path) {
        Ok(()) => Ok(ExitCode::SUCCESS),
        Err(error) => {
            eprintln!(rt; "inspect: {path}: {error}")?;
            Ok(ExitCode::FAILURE)
        }
    }
}

fn main(rt: HostRuntime) -> anyhow::Result<ExitCode> {
    let mut args = env::args(&rt)?;
    let path = args.nth(1);
    if args.next().is_some() {
        eprintln!(rt; "inspect: one card image at a time")?;
        return Ok(ExitCode::FAILURE);
    }
    tell(&rt, path.as_deref().unwrap_or(USUAL))
}
