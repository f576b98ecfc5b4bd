// The library for callers in C and Rust: numbers, slices and lent arrays. Where something is refused the answer is the
// refusal's number, else 0.
#![tactic(auto)]

ghost use Rattle.std.specs.Prelude.{◌≡◌};
ghost use Rattle.records.specs.Table.{table_of};
ghost use Rattle.record_words.specs.Words.{record_in};
ghost use Rattle.schilfauge.specs.Lent.{number_of, told_after, held_in, held_words, kept_after, has_sent};
ghost use Rattle.schilfauge.specs.Lent.{answer_words, stream_at, row_words, row_at, sent_in};
ghost use Rattle.schilfauge.specs.Promises.{HuntPromise, ReadPromise, RowPromise, WritePromise, FramePromise};

use element::Accepted;
use kernel::Refusal;
use reader::read;
use record_words::{RECORD_WORDS, lay_record, record_in};
use records::{Record, table_of, valid};
use row::{Row, cell_at, row_of};
use sync::{frame, hunt};
use writer::write;

// The words held: a record's, and behind them 1 where it is present.
const HELD_WORDS: usize = RECORD_WORDS + 1;

// The number that a function answers.
fn number<T: Copy>(answer: Result<T, Refusal>) -> usize
    ensures { result ≡ number_of answer }
{
    match answer {
        Ok(_) => 0,
        Err(x) => x.number,
    }
}

// The same; where nothing was refused, what is told is stored.
fn told<T: Copy>(answer: Result<T, Refusal>, to: &mut T) -> usize
    ensures number { result ≡ number_of answer }
    ensures told { to.new ≡ told_after to.old answer }
{
    match answer {
        Ok(value) => {
            *to = value;
            0
        }
        Err(x) => x.number,
    }
}

// The first frame at or after the start: its place, and the bytes of its element.
#[unsafe(no_mangle)]
pub extern "C" fn schilf_hunt(capture: &[u8], start: usize, found: &mut [usize; 2]) -> usize
    ensures { HuntPromise capture.now start found.old result found.new }
{
    let answer = hunt(capture, start);
    if let Ok(h) = answer {
        *found = [h.place, h.size];
    }
    number(answer)
}

fn held_in(words: &[u32; HELD_WORDS]) -> Option<Record>
    ensures { result ≡ held_in words.now }
{
    if words[RECORD_WORDS] == 1 {
        Some(record_in(words))
    } else {
        None
    }
}

#[tactic(auto, using(crate::proofs::Words::laid_held))]
fn held_words(r: Record) -> [u32; HELD_WORDS]
    ensures { result ≡ held_words r }
{
    let mut words = [1u32; HELD_WORDS];
    lay_record(&mut words, r);
    words
}

fn answer_words(v: Result<Accepted, Refusal>) -> [usize; 4]
    ensures { result ≡ answer_words v }
{
    match v {
        Ok(a) => [a.items as usize, 0, a.fields as usize, a.sent as usize],
        Err(x) => [0, x.place, x.fields, 0],
    }
}

// Whether a configuration was sent.
fn has_sent(v: Result<Accepted, Refusal>) -> bool
    ensures { result ≡ has_sent v }
{
    match v {
        Ok(a) => a.sent,
        Err(_) => false,
    }
}

// What is held is kept in the words, where it was sent.
fn keep(words: &mut [u32; HELD_WORDS], v: Result<Accepted, Refusal>, held: Option<Record>)
    ensures { words.new ≡ kept_after words.old v held }
{
    if has_sent(v) {
        if let Some(r) = held {
            *words = held_words(r);
        }
    }
}

// One element with what is held before it. Its items go into the map; a configuration that it sends is held from then
// on.
#[unsafe(no_mangle)]
pub extern "C" fn schilf_read(
    element: &[u8],
    held: &mut [u32; HELD_WORDS],
    map: &mut [u32],
    told: &mut [usize; 4],
) -> usize
    ensures { ReadPromise element.now held.old map.old result held.new
        map.new told.new }
{
    let before = held_in(held);
    let reply = read(element, before, map);
    keep(held, reply.verdict, reply.held);
    *told = answer_words(reply.verdict);
    number(reply.verdict)
}

fn stream_at(table: [[u8; 8]; 16], program: u32, layer: u32) -> u8
    ensures { result ≡ stream_at table program layer }
{
    if program < 16 && layer < 8 {
        return cell_at(table, program as usize, layer as usize);
    }
    255
}

fn row_words(stream: u8, x: Option<Row>) -> [i64; 9]
    ensures { result ≡ row_words stream x }
{
    match x {
        Some(r) => [
            stream as i64,
            r.program as i64,
            r.layer as i64,
            r.core as i64,
            r.rate as i64,
            r.output as i64,
            r.sbr as i64,
            r.ps as i64,
            r.channels as i64,
        ],
        None => [255, 0, 0, 0, 0, 0, 0, 0, 0],
    }
}

fn row_at(r: Record, program: u32, layer: u32) -> [i64; 9]
    ensures { result ≡ row_at r (table_of r.layers r.programs) program layer }
{
    let table = table_of(r.layers, r.programs);
    let stream = stream_at(table, program, layer);
    row_words(stream, row_of(r, table, program, layer))
}

// The row of a program's layer of a record's words, behind its stream's number.
#[unsafe(no_mangle)]
pub extern "C" fn schilf_row(
    words: &[u32; RECORD_WORDS],
    program: u32,
    layer: u32,
    row: &mut [i64; 9],
) -> usize
    ensures { RowPromise (record_in words.now) program layer row.old result row.new }
{
    let r = record_in(words);
    if !valid(r) {
        return 16;
    }
    *row = row_at(r, program, layer);
    0
}

// One element, written into `out` from a record's words; the bytes of it.
#[unsafe(no_mangle)]
pub extern "C" fn schilf_write(
    words: &[u32; RECORD_WORDS],
    send: bool,
    lengths: &[u32],
    payload: &[u8],
    other: &[u8],
    out: &mut [u8],
    written: &mut usize,
) -> usize
    ensures { WritePromise
        (sent_in words.now send lengths.now payload.now other.now)
        out.old written.old result out.new written.new }
{
    let r = record_in(words);
    told(write(r, send, lengths, payload, other, out), written)
}

// The frame of an element, laid into `out`; the bytes of it.
#[unsafe(no_mangle)]
pub extern "C" fn schilf_frame(element: &[u8], out: &mut [u8], written: &mut usize) -> usize
    ensures { FramePromise element.now out.old written.old result out.new
        written.new }
{
    told(frame(element, out), written)
}
