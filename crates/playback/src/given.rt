// What a case gives: its session, how it starts, and sizes that this program bounds.
ghost use Rattle.std.specs.Prelude.{◌<◌};

use crate::fault::Fault;
use crate::file::NUMBERS;
use maps::class::Counts;
use maps::map::SceneLimits;
use record::shape::FieldShape;
use state::session::Session;
use std::io::Read;

// The most elements of each buffer: both sets, table, grid, both planes, averages, map, history.
const MOST: [u32; 9] = [4096, 4096, 600, 4096, 2048, 2048, 1024, 1024, 114800];

// The most answers, and the most bytes of calls.
const ANSWERS: u32 = 16384;

const CALLS: u32 = 262144;

// Whether the calls are played on the session as it stands, or on what open leaves of its shape, side, limits and time.
#[derive(Clone, Copy)]
pub enum Start {
    AsGiven,
    Open,
}

#[derive(Clone, Copy)]
pub struct Case {
    numbers: [u32; NUMBERS],
}

impl Case {
    // Reads a case's numbers, which must fit this program.
    pub fn read(file: &mut impl Read) -> Result<Case, Fault> {
        let numbers = crate::file::read_numbers(file)?;
        let case = Case { numbers };
        if case.fits() {
            Ok(case)
        } else {
            Err(Fault::TooLarge)
        }
    }

    fn fits(&self) -> bool {
        let lengths = &self.numbers[25..34];
        lengths
            .iter()
            .zip(&MOST)
            .all(|(length, most)| *length <= *most)
            && self.numbers[35] <= ANSWERS
            && self.numbers[36] <= CALLS
    }

    fn signed(&self, k: usize) -> i32
        requires { k < 37 }
    {
        self.numbers[k].cast_signed()
    }

    // As replay has it, and the limits too: the two programs share no crate of their own.
    fn shape(&self) -> FieldShape {
        FieldShape {
            flags: self.signed(0),
            block_w: self.signed(1),
            block_h: self.signed(2),
            pel: self.signed(3),
            width: self.signed(4),
            height: self.signed(5),
            overlap_x: self.signed(6),
            overlap_y: self.signed(7),
            grid_w: self.signed(8),
            grid_h: self.signed(9),
            selector: self.signed(10),
        }
    }

    fn limits(&self) -> SceneLimits {
        SceneLimits {
            blocks: self.signed(12),
            zero: self.signed(13),
            m1: self.signed(14),
            m2: self.signed(15),
            scene: self.signed(16),
        }
    }

    fn kept(&self) -> Counts {
        Counts {
            counted: self.numbers[20],
            scene: self.numbers[21],
            m2: self.numbers[22],
            m1: self.numbers[23],
        }
    }

    // The first 24 numbers.
    pub fn session(&self) -> Session {
        Session {
            shape: self.shape(),
            side: self.numbers[11],
            limits: self.limits(),
            time: self.signed(17),
            past: self.numbers[18],
            future: self.numbers[19],
            kept: self.kept(),
        }
    }

    pub fn start(&self) -> Result<Start, Fault> {
        match self.numbers[24] {
            0 => Ok(Start::AsGiven),
            1 => Ok(Start::Open),
            _ => Err(Fault::NoStart),
        }
    }

    // The length of buffer b.
    pub fn length(&self, b: usize) -> usize
        requires { b < 9 }
    {
        self.numbers[25 + b] as usize
    }

    // What the buffers are filled from.
    pub fn seed(&self) -> u32 {
        self.numbers[34]
    }

    pub fn answers(&self) -> usize {
        self.numbers[35] as usize
    }

    // The bytes of the calls.
    pub fn calls(&self) -> usize {
        self.numbers[36] as usize
    }
}
