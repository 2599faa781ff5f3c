// Tells how many rows there are, and where their numbers do not rise.
use bench_list::breaks;
use bench_list::breaks::Break;
use std::io;

pub(crate) fn tell_list(rt: &HostRuntime, rows: &[u32]) -> io::Result<()> {
    println!(rt; "rows: {}", rows.len())?;
    let breaks = breaks::count_breaks(rows);
    if breaks == 0 {
        return println!(rt; "the numbers rise from row to row");
    }
    println!(rt; "the numbers do not rise at {breaks} of the rows")?;
    for (row, number) in rows.iter().enumerate() {
        if let Some(found) = breaks::break_at(rows, row) {
            tell_break(rt, *number, found)?;
        }
    }
    Ok(())
}

// A break has no text of its own: the text has the row's number, which only the list holds.
// Rows are told as a person counts them, from 1.
fn tell_break(rt: &HostRuntime, number: u32, found: Break) -> io::Result<()> {
    match found {
        Break::Duplicate { row, of } => println!(rt;
            "row {}: {number} is a duplicate of row {}",
            row.saturating_add(1),
            of.saturating_add(1)
        ),
        Break::Fall { row } => println!(rt; "row {}: {number} falls", row.saturating_add(1)),
    }
}
