// K7, K8 and K9: map bytes and the class.
use crate::given::{Entry, FORWARD, SHAPE, set};
use maps::map::SceneLimits;
use record::refusal;
use std::io;

const LIMITS: SceneLimits = SceneLimits {
    blocks: 20,
    zero: 200,
    m1: 1600,
    m2: 2800,
    scene: 4000,
};

// The average of every block and the sad of block 0; 8421504 is 0x808080.
const MAPPED: [(&str, u8, u32); 4] = [
    ("K7", 200, 156),
    ("K7", 200, 157),
    ("K8", 1, 8421504),
    ("K8", 1, 8421505),
];

// K7 and K8: the map byte of block 0.
pub fn k7_and_k8(rt: &impl Print) -> io::Result<()> {
    for (name, average, sad) in MAPPED {
        let set = set(&[Entry { sad, ..Entry::ZERO }]);
        let averages = [average; 9];
        let mut map = [7u8; 9];
        let outcome = maps::map::quality_map(SHAPE, 1, LIMITS, &set, &FORWARD, &averages, &mut map);
        let number = refusal::number(outcome);
        println!(rt;
            "{name}  average {average}, sad {sad}, number {number}, map byte {}",
            map[0]
        )?;
    }
    Ok(())
}

// The class of a set whose averages are 255, so that a score is the sad.
fn graded(rt: &impl Print, words: &str, first: &[Entry]) -> io::Result<()> {
    match maps::class::quality(SHAPE, 1, LIMITS, &set(first), &FORWARD, &[255; 9]) {
        Ok(class) => println!(rt; "K9  {words}, class {class}"),
        Err(_) => println!(rt; "K9  {words}, refused"),
    }
}

// K9: blocks with a sad of m1 count.
pub fn k9(rt: &impl Print) -> io::Result<()> {
    let at_m1 = Entry {
        sad: 1600,
        ..Entry::ZERO
    };
    graded(rt, "no block counted", &[])?;
    graded(rt, "four blocks at m1", &[at_m1; 4])?;
    graded(rt, "five blocks at m1", &[at_m1; 5])
}
