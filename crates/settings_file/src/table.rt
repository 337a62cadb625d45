// The table of a settings file: a line for each junction, by rising number.
ghost use Rattle.std.specs.Prelude.{◌≡◌, ◌≤◌, length, IfOk};

use crate::NamedFile;
use console::{Ends, Failure};
use description::{add_rate_words, points_in};
use standard::{Record, Refusal};
use words::Text;

// A junction: its current setting, and its previous one where one is kept; and where the next junction begins.
#[derive(Clone, Copy)]
struct Row {
    junction: u16,
    current: Record,
    previous: Option<Record>,
    next: usize,
}

// The junction whose entries begin at a place of the file; none at the end.
fn row_at(file: &[u8], at: usize) -> Option<Row> {
    let own = listing::entry_at(file, at)?;
    let row = Row {
        junction: own.junction,
        current: own.record,
        previous: None,
        next: own.next,
    };
    match listing::entry_at(file, own.next) {
        Some(second) if second.previous => Some(Row {
            previous: Some(second.record),
            next: second.next,
            ..row
        }),
        _ => Some(row),
    }
}

// Adds the line of a junction: its rate at the left of the column, M0 to M5, and the rate of the previous setting where there is one.
fn add_row(text: &mut Text<'_>, row: Row)
    ensures { length text.new.bytes.now ≡ length text.old.bytes.now }
{
    let r = row.current;
    let mut room = [0; 32];
    let mut rate = Text::new(&mut room);
    add_rate_words(&mut rate, r);
    text.add_right(8, row.junction as u64);
    text.add_values(b"  ", &[]);
    text.add_left(13, rate.as_slice());
    for m in r.index {
        text.add_right(5, points_in(r, m));
    }
    match row.previous {
        None => text.add_values(b"  none\n", &[]),
        Some(previous) => {
            text.add_values(b"  ", &[]);
            add_rate_words(text, previous);
            text.add_values(b"\n", &[]);
        }
    }
}

// Writes the line of a junction.
fn write_row(e: Ends<'_>, row: Row) -> Result<(), Failure> {
    let mut room = [0; 128];
    let mut text = Text::new(&mut room);
    add_row(&mut text, row);
    e.write(text.as_slice())
}

// Writes the lines of all junctions, and answers how many there are and how many of them have a previous setting. A file has no more
// junctions than bytes.
fn write_rows(e: Ends<'_>, file: &[u8]) -> Result<(usize, usize), Failure>
    ensures { IfOk result (λ p. (p.1 ≤ p.0) × (p.0 ≤ length file.now)) }
{
    let mut kept = 0;
    let mut at = 0;
    for rows in 0..file.len() {
        let Some(row) = row_at(file, at) else {
            return Ok((rows, kept));
        };
        write_row(e, row)?;
        kept += row.previous.is_some() as usize;
        at = row.next;
    }
    Ok((file.len(), kept))
}

impl NamedFile<'_> {
    // Writes the table of the file, which has these bytes, and says how many junctions it has.
    pub(crate) fn list(self, bytes: &[u8]) -> Result<(), Failure> {
        if !rules::is_file(bytes) {
            return Err(self.refuse(0, Refusal::FileBroken, false));
        }
        self.e.write(b"junction  rate            M0   M1   M2   M3   M4   M5  previous\n")?;
        let (rows, kept) = write_rows(self.e, bytes)?;
        self.e.tell(
            b"# junction~, # with a previous setting",
            &[rows as u64, kept as u64],
        );
        Ok(())
    }
}
