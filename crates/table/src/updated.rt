// K11: flags 0, payloads of 12 and 11 bytes.
use crate::given::SHAPE;
use record::refusal;
use std::io;

const HEAD: [u8; 12] = [16, 0, 0, 0, 160, 0, 0, 0, 0, 0, 0, 0];

fn given(rt: &impl Print, payload: &[u8]) -> io::Result<()> {
    let mut backward = [0u8; 72];
    let mut forward = [0u8; 72];
    let outcome = record::update::update(SHAPE, payload, &mut backward, &mut forward);
    let number = refusal::number(outcome);
    println!(rt; "K11 {} bytes, number {number}", payload.len())
}

pub fn k11(rt: &impl Print) -> io::Result<()> {
    given(rt, &HEAD)?;
    given(rt, &HEAD[..11])
}
