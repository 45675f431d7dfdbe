//! Makes the scripts of five numbers, and prints how many bytes each has and their digest.
#![tactic(auto)]

use sha2::{Digest, Sha256};
use std::io;
use workload_gen::make;

const NUMBERS: [u32; 5] = [0, 1, 7, 271, u32::MAX];

fn main(rt: HostRuntime) -> io::Result<()> {
    for number in NUMBERS {
        let script = make(rt.alloc(), number)?;
        let length = script.len();
        let digest = hex::encode(rt.alloc(), Sha256::digest(script.as_slice()).as_slice())?;
        println!(rt; "script {number}: {length} bytes, SHA-256 {digest}")?;
    }
    Ok(())
}
