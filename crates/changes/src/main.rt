// Checks a change file: reads it from standard input and writes a row for each line that no board could take.
#![tactic(auto)]

ghost use Rattle.std.specs.Prelude.{◌≡◌, OnOk};

use anyhow::Context;
use lifts::Fault;
use rows::Cursor;
use std::io::{Read, Stdin, Stdout, Write};
use std::process::ExitCode;
use std::{env, io};
use validator::{Summary, Validator, has_room, write_header};

const BLOCK: usize = 65536;

const NO_ROOM: &str = "no room for a row";

// The rows that wait to be written to standard output.
#[derive(Drop)]
struct Report {
    bytes: [u8; BLOCK],
    cursor: Cursor,
    to: Stdout,
}

impl Report {
    fn new(to: Stdout) -> Report {
        Report {
            bytes: [0; BLOCK],
            cursor: Cursor::new(),
            to,
        }
    }

    fn flush(&mut self) -> io::Result<()>
        ensures { OnOk result (self.new.cursor.end ≡ 0) }
    {
        self.to.write_all(self.cursor.text(&self.bytes))?;
        self.cursor.clear();
        Ok(())
    }

    fn begin(&mut self) -> Result<(), Fault> {
        write_header(&mut self.bytes, &mut self.cursor)
    }

    // Gives the validator a block of the file, and writes rows out when they fill their room.
    fn feed(&mut self, validator: &mut Validator, block: &[u8]) -> io::Result<()> {
        let mut rest = block;
        while !rest.is_empty() && !validator.is_done() {
            if !has_room(&self.bytes, &self.cursor) {
                self.flush()?;
            }
            let taken = validator.advance(rest, 0, &mut self.bytes, &mut self.cursor);
            rest = &rest[taken..];
        }
        Ok(())
    }

    fn finish(&mut self, validator: &mut Validator) -> anyhow::Result<()> {
        self.flush()?;
        validator
            .finish(&mut self.bytes, &mut self.cursor)
            .context(NO_ROOM)?;
        self.flush()?;
        Ok(())
    }
}

fn check(from: &mut Stdin, report: &mut Report) -> anyhow::Result<Summary> {
    let mut validator = Validator::new();
    let mut block = [0; BLOCK];
    report.begin().context(NO_ROOM)?;
    // Input has an end, and the count lets this loop have one too.
    for _ in 0..u64::MAX {
        if validator.is_done() {
            break;
        }
        match from.read(&mut block) {
            Ok(0) => break,
            Ok(n) => report.feed(&mut validator, &block[..n])?,
            Err(e) if e.kind() == io::ErrorKind::Interrupted => {}
            Err(e) => return Err(e.into()),
        }
    }
    report.finish(&mut validator)?;
    Ok(validator.summary())
}

fn run(rt: &HostRuntime) -> anyhow::Result<()> {
    let mut report = Report::new(rt.stdout());
    let summary = check(&mut rt.stdin(), &mut report)?;
    eprintln!(rt;
        "lines read: {}, well formed: {}, refused: {}",
        summary.read, summary.well_formed, summary.refused
    )?;
    Ok(())
}

// A run that fails has said why: a returned error would be printed once more.
fn main(rt: HostRuntime) -> io::Result<ExitCode> {
    if env::args(&rt)?.len() > 1 {
        eprintln!(rt; "usage: changes < FILE")?;
        return Ok(ExitCode::FAILURE);
    }
    match run(&rt) {
        Ok(()) => Ok(ExitCode::SUCCESS),
        Err(e) => {
            eprintln!(rt; "changes: {e}")?;
            Ok(ExitCode::FAILURE)
        }
    }
}
