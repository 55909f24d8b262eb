//! Measures turns of the desk beside the locks of a mutex, where its first argument is `bench`; else it does nothing.
#![tactic(auto)]

mod measure;
mod worker;

use std::{env, io};

fn main(rt: HostRuntime) -> io::Result<()> {
    let asked = match env::args(&rt)?.nth(1) {
        Some(word) => word.as_str() == "bench",
        None => false,
    };
    if !asked {
        println!(rt; "`desk_bench bench` prints turns a second of the desk and of a mutex")?;
        return Ok(());
    }
    for &passes in [1u32, 2, 4, 16].iter() {
        let desk = measure::desk_rate(&rt, rt.alloc(), passes)?;
        let mutex = measure::mutex_rate(&rt, rt.alloc(), passes)?;
        println!(rt; "{passes} passes: desk {desk} turns/s, mutex {mutex} turns/s")?;
    }
    Ok(())
}
