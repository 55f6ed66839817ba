// The residuals of a definition, held in an area (01, "Operations": "Start settles the last
// definition into area 0"). The definitions are in `specs/Started.antt`.
ghost use Rattle.index.specs.Handle.{table_of};
ghost use Rattle.slots.specs.Holding.{put_all, Gave};
ghost use Rattle.set_step.specs.Started.{ResolvesAll, initial};

use index::IndexedTable;
use resolving::resolve_definition;
use slots::{Exceeded, put};

// Holds all residuals of the body of definition d, each once.
pub fn resolve_set(table: &IndexedTable<'_>, d: usize, area: &mut [u64]) -> Result<usize, Exceeded>
    requires resolves_all { ResolvesAll (table_of table.now) d }
    ensures { Gave (put_all area.old 0 (initial (table_of table.now) d))
        result area.new }
{
    let n = table.branches(table.body(d));
    let mut c = 0;
    for i in 0..n {
        let s = resolve_definition(table, d, i, [0u64; 16]);
        c = put(area, c, &s)?;
    }
    Ok(c)
}
