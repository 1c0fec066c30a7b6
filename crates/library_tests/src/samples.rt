//! The programs that seeds make.

use json_program::write_json;
use sample_program::{sample_program, sample_settings};
use std::alloc::Global;
use std::test::Fail;

// The length and a hash (FNV-1a, of 64 bits) of the JSON of a seed's program.
const PROGRAMS: &str = "121694 10995199048568043854 <- 0
121738 15327777652865062286 <- 1
122346 11405708730303930407 <- 7
122102 13558690707527932810 <- 4294967295";

fn hash(text: &[u8]) -> u64 {
    let mut hash = 0xcbf2_9ce4_8422_2325_u64;
    for byte in text {
        hash = (hash ^ u64::from(*byte)).wrapping_mul(0x0000_0100_0000_01b3);
    }
    hash
}

fn program_of(alloc: Global, seed: &str) -> Option<String> {
    let program = sample_program(alloc, seed.parse().ok()?).ok()?;
    let text = write_json(alloc, &program).ok()?;
    let length = text.as_str().len();
    let hash = hash(text.as_bytes());
    format!(in alloc; "{length} {hash}").ok()
}

#[test]
fn seeds_make_programs(rt: HostRuntime) -> Result<(), Fail> {
    for line in PROGRAMS.lines() {
        let (wanted, seed) = line.split_once(" <- ").ok_or(line)?;
        let found = program_of(rt.alloc(), seed).ok_or(line)?;
        assert_eq!(&rt; found.as_str(), wanted, "at {line}");
    }
    assert!(&rt; sample_settings().starts_with("[{\"connector_name\":\"c0\""));
    Ok(())
}
