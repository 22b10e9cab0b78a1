//! Stores a record of 1,500 bytes on a fresh checked image of the bench model, reads it back and
//! compares, damages a byte, shows which sector turned bad, and mends it by writing it again. Each line
//! says what was done and what came back.
#![tactic(auto)]

mod bench;
mod lent_image;
mod sample_record;

use bench::{Bench, image_bytes};

fn main(rt: HostRuntime) -> anyhow::Result<()> {
    let mut memory = vec![in rt.alloc(); 0u8; image_bytes()]?;
    Bench::new(&rt, memory.as_mut_slice()).run()
}
