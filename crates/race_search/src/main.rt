//! A search for a crash that loses something: each list of steps of a desk and a vault up to a number of steps, and
//! each image that a crash may leave behind it, opened. A wrong desk is planted too, and must be found.
#![tactic(auto)]

mod desk;
mod images;
mod machine;
mod search;
mod vault;
mod world;

use search::Search;
use std::io;

fn main(rt: HostRuntime) -> io::Result<()> {
    let mut search = Search::new(rt.alloc());
    search.from_the_first(rt.alloc(), false, 5)?;
    search.along_a_life(rt.alloc())?;
    search.round_the_ring(rt.alloc())?;
    println!(rt; "states {}", search.states)?;
    println!(rt; "images {}", search.images)?;
    println!(rt; "reads {}", search.reads)?;
    println!(rt; "{search}")?;
    let mut planted = Search::new(rt.alloc());
    planted.from_the_first(rt.alloc(), true, 3)?;
    println!(rt; "planted: {planted}")
}
