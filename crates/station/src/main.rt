// Reads a bench list from standard input, and tells what a bench and a verifier would make of it.
#![tactic(auto)]

mod rehearsed;
mod risen;
mod stood;
mod walked;

use bench_list::list;
use field::traits::PrimeField;
use residue::moduli::BabyBear;
use std::io::Read;

fn main(rt: HostRuntime) -> anyhow::Result<()> {
    run(&rt)
}

fn run(rt: &HostRuntime) -> anyhow::Result<()> {
    let mut text = Vec::new(rt.alloc());
    rt.stdin().read_to_end(&mut text)?;
    // The library has no heap: it fills places that are lent to it.
    let mut places = [0u32; 64];
    let count = list::read_list(&text, &mut places)?;
    tell(rt, &places[..count])
}

// The handle is passed beside what is told, as std passes it: a struct of both would say no more.
fn tell(rt: &HostRuntime, rows: &[u32]) -> anyhow::Result<()> {
    risen::tell_list(rt, rows)?;
    stood::tell_domain(rt, rows)?;
    if rows.iter().any(|number| *number >= BabyBear::order()) {
        println!(rt;
            "a number is not below {}, so there is no rehearsal and no table",
            BabyBear::order()
        )?;
        return Ok(());
    }
    rehearsed::tell_rehearsal(rt, rows)?;
    walked::tell_table(rt, rows)
}
