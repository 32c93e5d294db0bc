// The answer to each request line: by its verb it is a check, a table or a run.
use super::answers::Answer;
use super::engines::{Audit, Direction, Double, Plain, TangentAudit, TangentDouble};
use super::runs::{Memories, run_line};
use table::Reply;
use text::fields::{BadLine, End, Fields};
use text::lend::{Lends, Lent, SHEET_WORDS, TABLE_WORDS};
use text::pattern;

// Neither this nor `table_line` is inlined, so that no other line has their arrays on the stack.
#[inline(never)]
fn check_line(fields: &mut Fields, out: &mut Answer) -> Result<(), BadLine> {
    Lent::read(fields, Lends::Nothing)?;
    let mut words = [0u16; SHEET_WORDS];
    let checked = table::check(fields.group(End::Line, &mut words)?);
    out.begin(Reply {
        number: checked.number,
        place: checked.place,
    });
    for count in [checked.longest, checked.rows, checked.values, checked.turns] {
        out.put(format_args!(" {count}"));
    }
    let nothing_lent = true;
    out.end(nothing_lent);
    Ok(())
}

// The table that a buffer begins with.
fn written(table: &[u16; TABLE_WORDS]) -> &[u16] {
    let rows = usize::from(table[0]);
    table.get(..1 + sheet::ROW_WORDS * rows).unwrap_or(table)
}

#[inline(never)]
fn table_line(direction: Direction, fields: &mut Fields, out: &mut Answer) -> Result<(), BadLine> {
    let lent = Lent::read(fields, Lends::Table)?;
    let mut words = [0u16; SHEET_WORDS];
    let words = fields.group(End::Line, &mut words)?;
    let mut table = [0u16; TABLE_WORDS];
    pattern::fill(&mut table);
    let reply = direction.write(words, &mut table[..lent.room]);
    out.begin(reply);
    if reply.number == table::DONE {
        let written = written(&table);
        out.put_cells(written);
        out.end(pattern::stands(&table, written.len()));
    } else {
        out.end(pattern::stands(&table, 0));
    }
    Ok(())
}

// An empty line has the empty verb and is no request.
fn answer_request(line: &[u8], memory: &mut Memories, out: &mut Answer) -> Result<(), BadLine> {
    let mut fields = Fields::of(line)?;
    match fields.next().ok_or(BadLine)? {
        b"check" => check_line(&mut fields, out),
        b"table" => table_line(Direction::Adjoint, &mut fields, out),
        b"tangent" => table_line(Direction::Tangent, &mut fields, out),
        b"audit" => run_line::<Audit>(&mut fields, &mut memory.residues, out),
        b"double" => run_line::<Double>(&mut fields, &mut memory.doubles, out),
        b"tangent-audit" => run_line::<TangentAudit>(&mut fields, &mut memory.residues, out),
        b"tangent-double" => run_line::<TangentDouble>(&mut fields, &mut memory.doubles, out),
        b"plain" => run_line::<Plain>(&mut fields, &mut memory.doubles, out),
        _ => Err(BadLine),
    }
}

pub fn answer_line(line: &[u8], memory: &mut Memories, out: &mut Answer) {
    if let Err(why) = answer_request(line, memory, out) {
        out.refuse(why);
    }
}
