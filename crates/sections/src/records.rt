// The records of a book or a table: ten bytes for each flow, highest priority first. They are handed on as a count and a slice that holds
// so many, as `records_answer` and `steps_before` take them (docs/PROMISES.md): a type for the functions between would be made in each.
ghost use Rattle.std.specs.Prelude.{◌≡◌, false, [], ◌+◌, ◌*◌, ◌≤◌, ◌<◌, eqb, length};
ghost use Rattle.trade.specs.Limits.{record_bytes, most_flows, most_id};
ghost use Rattle.trade.specs.First.{some, sum_to};
ghost use Rattle.trade.specs.Layout.{field};
ghost use Rattle.trade.specs.Facts.{facts_in, flow_in};
ghost use Rattle.sections.specs.Records.{misfit};
ghost use Rattle.trade.specs.Answers.{done};
ghost use Rattle.trade.specs.Codes.{outside, bad_record, code6};
ghost use Rattle.trade.specs.Refusals.{tested};

use numbers::numbers::word_at;
use trade::{Flow, Plan, Refusal};

// The flow that the ten bytes of a record say.
fn flow_of(part: &[u8]) -> Flow
    requires { record_bytes ≤ length part.now }
    ensures { result ≡ flow_in part.now 0 }
{
    Flow {
        id: word_at(part, 0),
        phase: word_at(part, 2),
        period: word_at(part, 4),
        deadline: word_at(part, 6),
        len: word_at(part, 8),
    }
}

// The record at a place.
pub fn record_at(records: &[u8], i: usize) -> Flow
    requires { record_bytes * i + record_bytes ≤ length records.now }
    ensures { result ≡ flow_in records.now i }
{
    let at = Flow::RECORD_BYTES * i;
    flow_of(&records[at..])
}

// The id of the record at a place.
fn id_at(records: &[u8], i: usize) -> u16
    requires { record_bytes * i + record_bytes ≤ length records.now }
    ensures { result ≡ field records.now i 0 }
{
    word_at(records, Flow::RECORD_BYTES * i)
}

// Whether a number is outside a range. The check does not find that a range that does not contain it says the same.
fn is_outside(low: u16, high: u16, v: u16) -> bool
    ensures { result ≡ outside low high v }
{
    v < low || high < v
}

// Whether an earlier record has the id of record i.
fn id_before(records: &[u8], i: usize) -> bool
    requires { record_bytes * i + record_bytes ≤ length records.now }
    ensures { result ≡ some (λ j. eqb (field records.now j 0) (field records.now i 0)) i }
{
    let id = id_at(records, i);
    for j in 0..i {
        if id_at(records, j) == id {
            return true;
        }
    }
    false
}

// Whether a field of a flow is outside its range, its id 0 among them.
fn is_misfit(f: Flow) -> bool
    ensures { result ≡ misfit f }
{
    is_outside(1, Flow::MOST_ID, f.id)
        | is_outside(0, Flow::MOST_PHASE, f.phase)
        | is_outside(1, Flow::MOST_PERIOD, f.period)
        | is_outside(1, f.period, f.deadline)
        | is_outside(1, Plan::MOST as u16, f.len)
}

// Whether an earlier record has the id of record i, searched for only if an id with its lower byte has been met.
fn is_repeat(records: &[u8], i: usize, met: bool) -> bool
    requires record_bytes_in_bounds { record_bytes * i + record_bytes ≤ length records.now }
    requires i_value { met ≡ false → some (λ j. eqb (field records.now j 0) (field records.now i 0)) i ≡ false }
    ensures { result ≡ some (λ j. eqb (field records.now j 0) (field records.now i 0)) i }
{
    if met {
        return id_before(records, i);
    }
    false
}

// Whether record i is one that code 6 refuses.
fn is_bad_record(records: &[u8], i: usize, met: bool) -> bool
    requires record_bytes_in_bounds { record_bytes * i + record_bytes ≤ length records.now }
    requires i_value { met ≡ false → some (λ j. eqb (field records.now j 0) (field records.now i 0)) i ≡ false }
    ensures { result ≡ bad_record (facts_in 0 0 [] records.now []) i }
{
    let repeat = is_repeat(records, i, met);
    is_misfit(record_at(records, i)) | repeat
}

// Whether code 6 is in doubt: some record is bad, told with no branch that a field decides, and the ids met marked by their lower bytes.
// If not, it is not given.
fn records_in_doubt(flows: usize, records: &[u8]) -> bool
    requires { record_bytes * flows ≤ length records.now }
    ensures { result ≡ false → code6 (facts_in 0 flows [] records.now []) ≡ done 0 }
{
    let mut met = [false; 256];
    let mut bad = false;
    for i in 0..flows {
        let low = (id_at(records, i) % 256) as usize;
        bad |= is_bad_record(records, i, met[low]);
        met[low] = true;
    }
    bad
}

// Code 6 by a search through the records.
fn searched_records(flows: usize, records: &[u8]) -> Result<(), Refusal>
    requires { record_bytes * flows ≤ length records.now }
    ensures { tested result ≡ code6 (facts_in 0 flows [] records.now []) }
{
    for i in 0..flows {
        if is_bad_record(records, i, true) {
            return Err(Refusal::BadRecord(i));
        }
    }
    Ok(())
}

// Code 6, at the first bad record. They are searched only in doubt.
pub fn records_answer(flows: usize, records: &[u8]) -> Result<(), Refusal>
    requires { record_bytes * flows ≤ length records.now }
    ensures { tested result ≡ code6 (facts_in 0 flows [] records.now []) }
{
    if records_in_doubt(flows, records) {
        return searched_records(flows, records);
    }
    Ok(())
}

// The length of the plan at a place, by its record.
pub fn len_at(records: &[u8], i: usize) -> usize
    requires { record_bytes * i + record_bytes ≤ length records.now }
    ensures { (result ≡ field records.now i 4) × (result ≤ most_id) }
{
    word_at(records, Flow::RECORD_BYTES * i + 8) as usize
}

// The steps of the plans before a place: where the plan there starts.
pub fn steps_before(records: &[u8], flows: usize) -> usize
    requires { (flows ≤ most_flows) × (record_bytes * flows ≤ length records.now) }
    ensures { (result ≡ sum_to (λ i. field records.now i 4) flows) × (result ≤ most_id * flows) }
{
    let mut sum = 0;
    for i in 0..flows {
        sum += len_at(records, i);
    }
    sum
}
