// The lines of the cells: object, key, value or "-", version. The table has them in order.
ghost use Rattle.laws.specs.Ruled.{Ruled};

use codec::cells::Content;
use codec::layout::CELL_SIZE;
use records::Record;
use table::rows::Row;

// The line of a cell.
fn line(r: Row) {
    printing::number(u64::from(r.object.0));
    printing::next(u64::from(r.key));
    let c = table::rows::written_in(r);
    match c.content {
        Content::Removed => {
            io::write_all(1, b" -");
        }
        Content::Value(v) => printing::next(u64::from(v)),
    }
    printing::next(c.version.0);
    printing::line_end();
}

// The lines of the counted cells; none where the record does not fit its table.
pub fn print(dir: &[u8], r: Record, table: &[u8])
    requires { Ruled dir.now }
{
    io::write_all(1, b"object key value version\n");
    if !records::fits(dir, r, table) {
        return;
    }
    for row in table.chunks_exact(CELL_SIZE).take(r.count as usize) {
        line(table::rows::row_at(row, 0));
    }
}
