// What a call answers, put on standard output.
use bounds::bounds::Checked;
use std::io;
use table::table::Table;
use trade::Answer;

pub(crate) fn put_answer(rt: &impl Print, answer: Answer) -> io::Result<()> {
    rt.write_all(&answer.code.to_be_bytes())?;
    rt.write_all(&answer.number.to_be_bytes())
}

// The answer, and the table that the call returns.
pub(crate) fn put_returned(rt: &impl Print, answer: Answer, t: Table) -> io::Result<()> {
    put_answer(rt, answer)?;
    rt.write_all(&[t.nodes, t.flows])?;
    rt.write_all(&t.rows)?;
    rt.write_all(&t.records)?;
    rt.write_all(&t.steps)?;
    rt.write_all(&t.figures)
}

// The answer, and all bounds, those of unused places too.
pub(crate) fn put_checked(rt: &impl Print, checked: Checked) -> io::Result<()> {
    put_answer(rt, checked.answer)?;
    for bound in checked.bounds {
        rt.write_all(&bound.to_be_bytes())?;
    }
    Ok(())
}
