//! The session at the bench: each step prints what it did and what came back.
ghost use Rattle.std.specs.Prelude.{◌≡◌, ◌*◌, Some, None, MatchResult};
ghost use Rattle.drive.specs.Examples.{geometry_of};
ghost use Rattle.drive.specs.Places.{place_at, unit_sectors};
ghost use Rattle.drive.specs.declared.rad_model.RadModel.{RadModel};
ghost use Rattle.rad.specs.Record.{CountsUp};

use crate::lent_image::{invert_byte, read_sector, write_sector};
use crate::sample_record::{RECORD_LEN, holds_part, padded_sector, sample_record};
use anyhow::{Context, Result, anyhow};
use drive::{DriveModel, Place, RadModel};
use std::io::Print;
use store::{
    CHECKED_RECORD_BYTES, CheckedImage, Mark, SECTOR_BYTES, SectorStore, sector_sum, write_verified,
};

const MODEL: RadModel = RadModel::Bench;

// Where the record starts.
const FIRST: u32 = 3;

// The sector that is damaged, and the byte of its data.
const DAMAGED: u32 = 4;

const DAMAGED_BYTE: usize = 100;

/// The memory of the disc's image, the record that is stored there, and the runtime to print by. Every step stays
/// in the memory that the session was lent, as its clause `stays` says.
#[derive(Drop)]
pub(crate) struct Bench<'a, R> {
    rt: &'a R,
    memory: &'a mut [u8],
    record: [u8; RECORD_LEN],
    // Every step finds the record that the session started with, so that what is compared is what was written.
    ghost counts_up: { CountsUp «record» },
}

/// The bytes of an image of a unit of the bench model.
pub(crate) fn image_bytes() -> usize
    ensures { result ≡ unit_sectors (geometry_of RadModel.Bench) * 1029 }
{
    MODEL.unit_sectors() as usize * CHECKED_RECORD_BYTES
}

impl<'a, R: Print> Bench<'a, R> {
    pub(crate) fn new(rt: &'a R, memory: &'a mut [u8]) -> Self
        ensures memory { result.memory ≡ memory.entry }
        ensures record_counts_up { CountsUp result.«record» }
    {
        Bench {
            rt,
            memory,
            record: sample_record(),
        }
    }

    pub(crate) fn run(&mut self) -> Result<()>
        ensures stays { self.new.memory.ghost_name ≡ self.old.memory.ghost_name }
    {
        self.open_image()?;
        self.write_record()?;
        self.compare_record()?;
        self.list_sectors()?;
        self.damage_sector()?;
        self.list_bad_sectors()?;
        self.rewrite_sector()?;
        self.list_bad_sectors()?;
        self.read_past_the_end()
    }

    fn open_image(&mut self) -> Result<()>
        ensures stays { self.new.memory.ghost_name ≡ self.old.memory.ghost_name }
    {
        let bytes = self.memory.len();
        match CheckedImage::new(self.memory) {
            Ok(image) => {
                let sectors = image.size();
                println!(self.rt;
                    "open a fresh checked image of the bench model, {bytes} bytes: {sectors} sectors"
                )?;
                Ok(())
            }
            Err(unfit) => {
                let number = unfit.number();
                println!(self.rt; "open a checked image of {bytes} bytes: refused, {number}")?;
                Err(anyhow!("the image does not fit"))
            }
        }
    }

    fn write_record(&mut self) -> Result<()>
        ensures stays { self.new.memory.ghost_name ≡ self.old.memory.ghost_name }
    {
        let len = self.record.len();
        println!(self.rt; "write a record of {len} bytes at number {FIRST}:")?;
        let record = &self.record;
        let memory = &mut *self.memory;
        for (number, part) in (FIRST..MODEL.unit_sectors()).zip(record.chunks(SECTOR_BYTES)) {
            let mut back = [0u8; SECTOR_BYTES];
            write_sector(memory, number, &padded_sector(part))?;
            let mark = read_sector(memory, number, &mut back)?;
            let place = place_of(number)?;
            let bytes = part.len();
            let zeros = SECTOR_BYTES.saturating_sub(bytes);
            println!(self.rt;
                "  number {number}, place {place}: {bytes} bytes and {zeros} zeros written, read back {mark}"
            )?;
        }
        Ok(())
    }

    fn compare_record(&mut self) -> Result<()>
        ensures stays { self.new.memory.ghost_name ≡ self.old.memory.ghost_name }
    {
        println!(self.rt; "read the record back and compare it:")?;
        let record = &self.record;
        let memory = &mut *self.memory;
        for (number, part) in (FIRST..MODEL.unit_sectors()).zip(record.chunks(SECTOR_BYTES)) {
            let mut buffer = [0u8; SECTOR_BYTES];
            let mark = read_sector(memory, number, &mut buffer)?;
            let verdict = if holds_part(&buffer, part) {
                "as written"
            } else {
                "not as written"
            };
            println!(self.rt; "  number {number}: {mark}, {verdict}")?;
        }
        Ok(())
    }

    fn list_sectors(&mut self) -> Result<()>
        ensures stays { self.new.memory.ghost_name ≡ self.old.memory.ghost_name }
    {
        println!(self.rt; "read every sector:")?;
        self.show_sectors(|_| true)?;
        Ok(())
    }

    fn list_bad_sectors(&mut self) -> Result<()>
        ensures stays { self.new.memory.ghost_name ≡ self.old.memory.ghost_name }
    {
        println!(self.rt; "look for bad sectors:")?;
        let bad = self.show_sectors(|mark| mark == Mark::Bad)?;
        let sectors = MODEL.unit_sectors();
        println!(self.rt; "  {bad} of {sectors} are bad")?;
        Ok(())
    }

    // Prints the sectors whose marks are asked for, and counts them, in a loop since each turn may fail.
    fn show_sectors<F: Fn(Mark) -> bool>(&mut self, asked: F) -> Result<u32>
        requires { F.IsAlwaysCallable asked }
        ensures stays { self.new.memory.ghost_name ≡ self.old.memory.ghost_name }
    {
        let mut shown: u32 = 0;
        for number in 0..MODEL.unit_sectors() {
            let mut buffer = [0u8; SECTOR_BYTES];
            let mark = read_sector(self.memory, number, &mut buffer)?;
            if asked(mark) {
                self.show_sector(number, mark, &buffer)?;
                shown = shown.saturating_add(1);
            }
        }
        Ok(shown)
    }

    // Prints what a sector holds.
    fn show_sector(&self, number: u32, mark: Mark, content: &[u8; SECTOR_BYTES]) -> Result<()> {
        let place = place_of(number)?;
        let sum = sector_sum(content);
        println!(self.rt; "  number {number}, place {place}: {mark}, sum {sum}")?;
        Ok(())
    }

    fn damage_sector(&mut self) -> Result<()>
        ensures stays { self.new.memory.ghost_name ≡ self.old.memory.ghost_name }
    {
        let at = DAMAGED as usize * CHECKED_RECORD_BYTES + 1 + DAMAGED_BYTE;
        let old = invert_byte(self.memory, at).context("the image has no such byte")?;
        println!(self.rt;
            "invert byte {DAMAGED_BYTE} of number {DAMAGED} in the image: it was {old}"
        )?;
        Ok(())
    }

    fn rewrite_sector(&mut self) -> Result<()>
        ensures stays { self.new.memory.ghost_name ≡ self.old.memory.ghost_name }
    {
        let content = padded_sector(&self.record[SECTOR_BYTES..]);
        let mut back = [0u8; SECTOR_BYTES];
        let mut image = CheckedImage::over(self.memory);
        let mark = write_verified(&mut image, DAMAGED, &content, &mut back)?;
        println!(self.rt; "write number {DAMAGED} again and read it back:")?;
        self.show_sector(DAMAGED, mark, &back)
    }

    fn read_past_the_end(&mut self) -> Result<()>
        ensures stays { self.new.memory.ghost_name ≡ self.old.memory.ghost_name }
    {
        let past = MODEL.unit_sectors();
        let mut buffer = [0u8; SECTOR_BYTES];
        match read_sector(self.memory, past, &mut buffer) {
            Ok(mark) => println!(self.rt; "read number {past}: {mark}")?,
            Err(fault) => println!(self.rt; "read number {past}: refused, {fault}")?,
        }
        Ok(())
    }
}

// A sector's place in the model.
fn place_of(number: u32) -> Result<Place>
    ensures found { MatchResult result
        (λ place. place_at (geometry_of RadModel.Bench) number ≡ Some place)
        (λ _. place_at (geometry_of RadModel.Bench) number ≡ None) }
{
    MODEL.place(number).context("the model has no such sector")
}
