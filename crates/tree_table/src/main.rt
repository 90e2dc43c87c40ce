//! Asks a memory partner row by row about its tree, over a pair of rings, and writes what it answers:
//! a line for each row, with what was asked, the result, and how the loan came back. What must come
//! out was worked out from rules that were written by hand, without this code.
#![tactic(auto)]

mod row;
mod rows;
mod table;

use std::io;
use table::Table;

fn main(rt: HostRuntime) -> io::Result<()> {
    let alloc = rt.alloc();
    let mut table = Table::new(alloc)?;
    table.tell_all(alloc, &rt, &rows::PATHS)?;
    table.tell_all(alloc, &rt, &rows::OPENINGS)?;
    table.tell_all(alloc, &rt, &rows::DIRECTORIES)?;
    table.tell_all(alloc, &rt, &rows::NUMBERED)?;
    table.tell_all(alloc, &rt, &rows::NAMES_GONE)?;
    table.tell_all(alloc, &rt, &rows::REMOVALS)?;
    table.tell_all(alloc, &rt, &rows::RENAMES)?;
    table.tell_all(alloc, &rt, &rows::PARTS)?;
    table.tell_all(alloc, &rt, &rows::LACKING)
}
