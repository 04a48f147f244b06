//! A test program of CI. It compares the tables of docs/INSTRUCTIONS.md, docs/PROCEDURES.md and
//! examples/system/README.md with the program. Its input is these pages, one after the other. It prints each table row
//! that differs from the program, and the number after the last one that has a table row.
#![tactic(auto)]

mod page;
mod row;

use page::Page;
use row::Table;
use std::io;

fn main(rt: HostRuntime) -> io::Result<()> {
    let mut opcodes = Page::new(Table::Opcodes);
    let mut standard = Page::new(Table::Standard);
    let mut system = Page::new(Table::System);
    for line in rt.lines(rt.alloc()) {
        let line = line?;
        let opcode = opcodes.line(rt.alloc(), line.as_str())?;
        let procedure = standard.line(rt.alloc(), line.as_str())?;
        let of_system = system.line(rt.alloc(), line.as_str())?;
        if !opcode || !procedure || !of_system {
            println!(rt; "not so: {line}")?;
        }
    }
    println!(rt; "opcodes below {}", opcodes.next())?;
    println!(rt; "standard procedures below {}", standard.next())?;
    println!(rt; "procedures of the system below {}", system.next())
}
