// Tells which constraints of the station AIR fail at which rows, with the list laid out as its columns.
use bench::station_row;
use field::traits::Field;
use residue::moduli::BabyBear;
use std::alloc::{AllocError, Global};
use walk::{StationRow, Table, WalkEnds};

// The last row is its own next one.
fn laid_out(heap: Global, rows: &[u32]) -> Result<Vec<StationRow<BabyBear>>, AllocError> {
    let mut laid = Vec::with_capacity(heap, rows.len())?;
    for (station, next) in rows.iter().zip(rows.iter().skip(1).chain(rows.last())) {
        laid.push(station_row(*station, *next))?;
    }
    Ok(laid)
}

pub(crate) fn tell_table(rt: &HostRuntime, rows: &[u32]) -> anyhow::Result<()> {
    let (Some(first), Some(last)) = (rows.first(), rows.last()) else {
        return Ok(());
    };
    let laid = laid_out(rt.alloc(), rows)?;
    let ends = WalkEnds {
        values: [*first, *last].map(BabyBear::from_u32),
    };
    let table = Table {
        rows: &laid,
        ends: &ends,
    };
    if table.first_failure().is_none() {
        println!(rt; "every constraint of the station AIR is zero on every row")?;
        return Ok(());
    }
    // By number: what fails is told by its place, and the table reads the cells.
    for row in 0..rows.len() {
        tell_row(rt, table, row)?;
    }
    Ok(())
}

// Rows are told from 1, constraints from 0 as the AIR lists them: by number, which is all that is told.
fn tell_row(rt: &HostRuntime, table: Table<'_, BabyBear>, row: usize) -> anyhow::Result<()> {
    for constraint in 0..11usize {
        if !table.vanishes_in_row(row, constraint) {
            println!(rt;
                "row {}: constraint {constraint} is not zero",
                row.saturating_add(1)
            )?;
        }
    }
    Ok(())
}
