//! A batch over a desk in memory: the smallest program over the desk's libraries, which shows how
//! they are called. It answers the requests of its standard input and keeps nothing.
#![tactic(auto)]

use desk_batch::run_batch;
use desk_memory::MemoryDesk;
use price_rules::precedence::Precedence;
use std::process::ExitCode;

fn main(rt: HostRuntime) -> std::io::Result<ExitCode> {
    let alloc = rt.alloc();
    let mut desk = MemoryDesk::new(alloc);
    let rules = Precedence::none(alloc);
    let refused = run_batch(alloc, &mut desk, &rules, &mut rt.stdin(), &mut rt.stdout());
    Ok(ExitCode::from(match refused {
        Ok(0) => 0,
        Ok(_) => 1,
        Err(fault) => {
            eprintln!(rt; "{fault}")?;
            3
        }
    }))
}
