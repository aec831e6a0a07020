// Calls of the top call over a shelf and streams in memory: what is asked, and whether it is answered so.
use htl_edge::{Drawer, Page, Tape};
use htl_samples::files::shelf_of;
use htl_samples::object_bytes::changed;
use htl_samples::pieces::text_of;
pub use htl_samples::pieces::{Piece, Text};
use htl_top::{htl, status};
use std::alloc::Global;

/// Bytes of a file, an input or an output.
#[derive(Clone, Copy)]
pub enum Content {
    Text(&'static str),
    Made(Text),
    /// An object with other bytes from a place on; what lies behind them is kept, or left out.
    Changed(&'static [u8], usize, &'static [u8], bool),
    /// The first bytes.
    Front(&'static [u8], usize),
    /// The first lines.
    Lines(&'static str, usize),
    /// So many times this byte.
    Filled(u8, usize),
    /// The object of a source.
    Object(Text),
    /// The object of a source for a platform.
    ObjectOn(Text, &'static str),
    /// The object of a source whose mode has the refinement that the object of another source gives it.
    Patched(Text, &'static str, Text),
}

pub const EMPTY: Content = Content::Front(&[], 0);

/// What the files A and B are, and what the input.
#[derive(Clone, Copy)]
pub enum Place {
    /// The two contents are the files.
    Files,
    /// The first file is the object of the first content.
    Compiled,
    /// The first content is the input, the second the first file.
    Input,
}

/// How the input and the output give and take: seven bytes a read and 8,192 bytes at all, but for what is said.
#[derive(Clone, Copy)]
pub enum Streams {
    Usual,
    /// So many bytes a read.
    Step(usize),
    /// So many bytes at all.
    Room(usize),
    RoomFails(usize, u64),
    /// This read fails, and this write.
    Fails(u64, u64),
    StepFails(usize, u64),
    /// These fetches fail.
    Fetches(&'static [u64]),
}

/// The two contents, the script, and the status, the output and what is told.
pub type Row = (Content, Content, &'static str, u8, Content, &'static str);

/// Calls with the same words.
#[derive(Clone, Copy)]
pub struct Group {
    pub name: &'static str,
    pub words: &'static [&'static str],
    pub place: Place,
    pub streams: Streams,
    pub rows: &'static [Row],
}

/// Streams, and the status, the output and what is told with them.
pub type StreamsRow = (Streams, u8, Content, &'static str);

/// A call, with streams that differ.
pub struct Tried {
    pub name: &'static str,
    pub words: &'static [&'static str],
    pub place: Place,
    pub contents: (Content, Content),
    pub script: &'static str,
    pub rows: &'static [StreamsRow],
}

/// A call, and what is wanted.
#[derive(Clone, Copy)]
pub struct Case<'a> {
    pub words: &'a [&'a str],
    pub place: Place,
    pub streams: Streams,
    pub contents: (Content, Content),
    pub script: &'a str,
    pub status: u8,
    pub out: Content,
    pub told: &'a str,
}

// How many bytes a read gives, for how many the output has room, and the read and the write that fail.
fn numbers(streams: Streams) -> (usize, usize, u64, u64) {
    match streams {
        Streams::Usual | Streams::Fetches(_) => (7, 8192, 0, 0),
        Streams::Step(step) => (step, 8192, 0, 0),
        Streams::Room(room) => (7, room, 0, 0),
        Streams::RoomFails(room, write) => (7, room, 0, write),
        Streams::Fails(read, write) => (7, 8192, read, write),
        Streams::StepFails(step, read) => (step, 8192, read, 0),
    }
}

// The status of a call; None where no memory is left, here and below.
fn call(
    alloc: Global,
    (words, streams): (&[&str], Streams),
    shelf: &mut Drawer,
    input: &[u8],
    out: &mut Page,
    err: &mut Page,
) -> Option<u8> {
    let (step, _, read, _) = numbers(streams);
    let mut input = Tape::new(alloc, input, step.max(1), &[read]).ok()?;
    Some(status(&htl(alloc, words, shelf, &mut input, out, err)))
}

// What a call writes, or what is told, where it isn't done.
fn written(alloc: Global, words: &[&str], shelf: &mut Drawer, input: &[u8]) -> Option<Vec<u8>> {
    let mut out = Page::new(alloc, 8192, &[]).ok()?;
    let mut err = Page::new(alloc, 100, &[]).ok()?;
    let asked = (words, Streams::Usual);
    let page = match call(alloc, asked, shelf, input, &mut out, &mut err)? {
        0 => &out,
        _ => &err,
    };
    Vec::from_slice(alloc, page.bytes()).ok()
}

// The object of a source.
fn compiled(alloc: Global, source: &[u8]) -> Option<Vec<u8>> {
    let mut shelf = shelf_of(alloc, Vec::new(alloc), Vec::new(alloc), &[])?;
    written(alloc, &["compile"], &mut shelf, source)
}

/// The object of a source for a platform.
pub fn compiled_on(alloc: Global, source: &[u8], file: &str) -> Option<Vec<u8>> {
    let file = Vec::from_slice(alloc, file.as_bytes()).ok()?;
    let mut shelf = shelf_of(alloc, file, Vec::new(alloc), &[])?;
    written(alloc, &["compile", "with", "A"], &mut shelf, source)
}

// How many bytes the first lines have.
fn first_lines(text: &str, count: usize) -> usize {
    let mut left = count;
    for (at, byte) in text.as_bytes().iter().enumerate() {
        if left == 0 {
            return at;
        }
        if *byte == b'\n' {
            left -= 1;
        }
    }
    text.len()
}

fn front(alloc: Global, bytes: &[u8], count: usize) -> Option<Vec<u8>> {
    Vec::from_slice(alloc, bytes.split_at(count.min(bytes.len())).0).ok()
}

// The object of a source.
fn object_of(alloc: Global, source: Text) -> Option<Vec<u8>> {
    let source = text_of(alloc, source).ok()?;
    compiled(alloc, source.as_bytes())
}

fn object_on(alloc: Global, source: Text, file: &str) -> Option<Vec<u8>> {
    let source = text_of(alloc, source).ok()?;
    compiled_on(alloc, source.as_bytes(), file)
}

// The object of a source with the refinement that a donor gives a mode.
fn patched(alloc: Global, source: Text, mode: &str, donor: Text) -> Option<Vec<u8>> {
    let object = object_of(alloc, source)?;
    let mut shelf = shelf_of(alloc, object, object_of(alloc, donor)?, &[])?;
    written(alloc, &["patch", "A", mode, "B"], &mut shelf, b"")
}

// The bytes of a text.
fn made(alloc: Global, text: Text) -> Option<Vec<u8>> {
    Some(text_of(alloc, text).ok()?.into_bytes())
}

fn bytes_of(alloc: Global, content: Content) -> Option<Vec<u8>> {
    match content {
        Content::Text(text) => Vec::from_slice(alloc, text.as_bytes()).ok(),
        Content::Made(text) => made(alloc, text),
        Content::Changed(object, at, by, rest) => changed(alloc, object, at, by, rest).ok(),
        Content::Front(bytes, count) => front(alloc, bytes, count),
        Content::Lines(text, count) => front(alloc, text.as_bytes(), first_lines(text, count)),
        Content::Filled(byte, count) => vec![in alloc; byte; count].ok(),
        Content::Object(source) => object_of(alloc, source),
        Content::ObjectOn(source, file) => object_on(alloc, source, file),
        Content::Patched(source, mode, donor) => patched(alloc, source, mode, donor),
    }
}

// Whether a call has this status and output and tells this, where this one of its writes to tell fails.
fn comes_to(
    alloc: Global,
    (words, streams): (&[&str], Streams),
    shelf: &mut Drawer,
    input: &[u8],
    (status, want, told): (u8, &[u8], &str),
    tell: u64,
) -> Option<bool> {
    let (_, room, _, write) = numbers(streams);
    let mut out = Page::new(alloc, room, &[write]).ok()?;
    let mut err = Page::new(alloc, 100, &[tell]).ok()?;
    let came = call(alloc, (words, streams), shelf, input, &mut out, &mut err)?;
    Some(came == status && out.bytes() == want && err.bytes() == told.as_bytes())
}

// Whether a call comes to this, also where what it comes to cannot be written, which changes nothing else.
fn comes_to_both(
    alloc: Global,
    asked: (&[&str], Streams),
    shelf: &mut Drawer,
    input: &[u8],
    (status, want, told): (u8, &[u8], &str),
) -> Option<bool> {
    let heard = comes_to(alloc, asked, shelf, input, (status, want, told), 0)?;
    let unheard = comes_to(alloc, asked, shelf, input, (status, want, ""), 1)?;
    Some(heard && unheard)
}

/// Whether a call over this shelf and input is answered so.
pub fn is_answered_on(
    alloc: Global,
    case: &Case<'_>,
    shelf: &mut Drawer,
    input: &[u8],
) -> Option<bool> {
    let want = bytes_of(alloc, case.out)?;
    let asked = (case.words, case.streams);
    let wanted = (case.status, want.as_slice(), case.told);
    comes_to_both(alloc, asked, shelf, input, wanted)
}

// The same with the files A and B, of which this is the first, and the script.
fn is_answered_of(alloc: Global, case: &Case<'_>, first: Vec<u8>) -> Option<bool> {
    let second = bytes_of(alloc, case.contents.1)?;
    let fails = match case.streams {
        Streams::Fetches(fails) => fails,
        _ => &[],
    };
    let mut shelf = shelf_of(alloc, first, second, fails)?;
    is_answered_on(alloc, case, &mut shelf, case.script.as_bytes())
}

// The same with the file A and this input.
fn is_answered_with(alloc: Global, case: &Case<'_>, input: &[u8]) -> Option<bool> {
    let file = bytes_of(alloc, case.contents.1)?;
    let mut shelf = shelf_of(alloc, file, Vec::new(alloc), &[])?;
    is_answered_on(alloc, case, &mut shelf, input)
}

// The same, wherever the contents stand.
fn answer_is_so(alloc: Global, case: &Case<'_>) -> Option<bool> {
    let first = bytes_of(alloc, case.contents.0)?;
    match case.place {
        Place::Files => is_answered_of(alloc, case, first),
        Place::Compiled => is_answered_of(alloc, case, compiled(alloc, first.as_slice())?),
        Place::Input => is_answered_with(alloc, case, first.as_slice()),
    }
}

/// Whether a call is answered so.
pub fn is_answered(alloc: Global, case: &Case<'_>) -> bool {
    answer_is_so(alloc, case) == Some(true)
}

// The call of a row of a group.
fn case_of_row(group: &Group, row: &Row) -> Case<'static> {
    let (first, second, script, status, out, told) = *row;
    Case {
        words: group.words,
        place: group.place,
        streams: group.streams,
        contents: (first, second),
        script,
        status,
        out,
        told,
    }
}

// The first row of a group with another answer.
fn wrong_row(alloc: Global, group: &Group) -> Option<usize> {
    for (k, row) in group.rows.iter().enumerate() {
        if !is_answered(alloc, &case_of_row(group, row)) {
            return Some(k);
        }
    }
    None
}

/// The first group with a row that has another answer, and the number of the row.
pub fn first_wrong(alloc: Global, groups: &[Group]) -> Option<(&'static str, usize)> {
    for group in groups {
        if let Some(k) = wrong_row(alloc, group) {
            return Some((group.name, k));
        }
    }
    None
}

// The call of a row of streams.
fn case_of_streams(tried: &Tried, row: &StreamsRow) -> Case<'static> {
    let (streams, status, out, told) = *row;
    Case {
        words: tried.words,
        place: tried.place,
        streams,
        contents: tried.contents,
        script: tried.script,
        status,
        out,
        told,
    }
}

// The first row with another answer.
fn other_row(alloc: Global, tried: &Tried) -> Option<usize> {
    for (k, row) in tried.rows.iter().enumerate() {
        if !is_answered(alloc, &case_of_streams(tried, row)) {
            return Some(k);
        }
    }
    None
}

/// The same of calls with streams that differ.
pub fn first_other(alloc: Global, tries: &[Tried]) -> Option<(&'static str, usize)> {
    for tried in tries {
        if let Some(k) = other_row(alloc, tried) {
            return Some((tried.name, k));
        }
    }
    None
}
